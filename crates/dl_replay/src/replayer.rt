//! The replayer of a sphere. The sphere's state is the caller's, who hands it in. A commit is judged before anything
//! changes. If it goes, it is taken into the state, except for the words that it stores, which are the caller's to lay.
ghost use Rattle.std.specs.Prelude.{◌≡◌, ◌↔◌, ℕ, List, ◌+◌, ◌<◌, ◌≤◌, ◌^◌, false, length, slice_get, None, Some, IsTrue, option_map};
ghost use Rattle.std.specs.Prelude.{IfOk, IfSome, OnOk, OnErr, OnSome};
ghost use Rattle.dl_entry.specs.Numbers.{most_threads};
ghost use Rattle.dl_entry.specs.declared.Why.{Why};
ghost use Rattle.spec_isa.specs.Words.{Stored};
ghost use Rattle.spec_isa.specs.declared.thread.Parts.{Parts};
ghost use Rattle.spec_isa.specs.declared.thread.Load.{Load};
ghost use Rattle.spec_isa.specs.Runs.{Run};
ghost use Rattle.spec_play.specs.declared.used.Used.{Used};
ghost use Rattle.spec_play.specs.Effects.{Effect};
ghost use Rattle.spec_play.specs.Progress.{Progress};
ghost use Rattle.spec_play.specs.Resuming.{IsBounded};
ghost use Rattle.spec_play.specs.Spawned.{AreNew};
ghost use Rattle.spec_play.specs.Turns.{Turn, TurnOfDma};
ghost use Rattle.spec_play.specs.Transfers.{DmaGoes, dma_verdict};
ghost use Rattle.spec_play.specs.Verdicts.{Goes, chunk_verdict, serial_verdict};
ghost use Rattle.spec_sphere.specs.sphere.Spheres.{Replay, Sphere, actor_of, is_over, joins_in, pieces_of, turn_in};
ghost use Rattle.spec_log.specs.Log.{IsLog};
ghost use Rattle.spec_strata.specs.Canonical.{canonical};
ghost use Rattle.spec_strata.specs.Standing.{after_dma, after_thread, stratum_begun};
ghost use Rattle.dl_kernel.specs.States.{PlayState, state_in};
ghost use Rattle.dl_kernel.specs.Calls.{spawned_list};
ghost use Rattle.spec_sphere.specs.promises.Sound.{IsSoundIf};
ghost use Rattle.dl_replay.specs.Following.{cursor_of, diverged, end_of, followed, followed_from};
ghost use Rattle.dl_replay.specs.Judged.{dma_judged, judged, last_by};
ghost use Rattle.dl_replay.specs.Judging.{transfer_verdict};
ghost use Rattle.dl_replay.specs.Left.{SaysSize, served_by, served_left, verdict_left, verdict_stored};
ghost use Rattle.dl_replay.specs.Limits.{chunk_limit, chunk_limit_in};
ghost use Rattle.dl_replay.specs.Replays.{Agrees, IsReplaying};
ghost use Rattle.dl_mode.specs.Strata.{AreFewIf, begins};
ghost use Rattle.dl_replay.specs.Standings.{IsWithinIf};

use crate::judging::{Done, Finish, judge_chunk, judge_dma, judge_step, transfer_of};
use crate::lookup::Lookup;
use crate::ready::ReadyStrata;
use crate::strata_mode::StrataMode;
use crate::turn_or_end::TurnOrEnd;
use crate::turning::now_in;
use crate::verdict::Verdict;
use dl_entry::{Actor, End, OutOfMemory, Request, Why};
use dl_kernel::{State, StepResult, settle};
use dl_mode::{Mode, Noting, is_head};
use dl_thread::Thread;
use dl_wbuf::Buffer;
use spec_log::Log;
use spec_play::Interval;
use std::alloc::Global;
use std::marker::Model;
use std::rc::Rc;

/// Follows a log, or an interval of its commits, by which its sphere's commits are judged; or strata, which are a mode too.
#[derive(Drop)]
pub struct Replayer<M: Mode> {
    alloc: Global,
    log: Lookup<M>,
    interval: Option<Interval>,
    turn: TurnOrEnd,
    total: u32,
}

impl<M: Mode> Model for Replayer<M> {
    ghost use Rattle.spec_log.specs.Log.{IsLog};
    ghost use Rattle.dl_replay.specs.Following.{Following, following};

    ghost Value = { Following };

    ghost view = { λ r. following r.log.log r.interval r.log.strata r.turn r.total };

    ghost invariant = { λ r. IsLog r.log.log };
}

impl<M: Noting> Replayer<M> {
    /// The replay of a log, or of an interval of its commits, from a state of the log's play on.
    pub fn at(
        alloc: Global,
        log: &Log,
        interval: Option<Interval>,
        state: &State,
    ) -> Result<Replayer<M>, OutOfMemory>
        requires mode { log.now.mode ≡ M.mode }
        requires state { IsBounded log.now (state_in state.now) }
        requires request { IsSoundIf (length state.now.memory) state.now.request }
        ensures value { IfOk result (λ replayer. replayer ≡ followed_from log.now interval (state_in state.now)) }
        ensures at { IfOk result (λ replayer. IsReplaying replayer state.now) }
    {
        let log = Lookup::new(alloc, log)?;
        Ok(begun(alloc, log, interval, state))
    }
}

impl Replayer<StrataMode> {
    /// The replay of strata, of which nothing is done, from a state in which no commit is.
    pub fn of_strata(
        alloc: Global,
        strata: &Rc<ReadyStrata>,
        state: &State,
    ) -> Result<Replayer<StrataMode>, OutOfMemory>
        requires start { state.now.commits ≡ 0 }
        requires state { IsBounded (canonical strata.now.value) (state_in state.now) }
        requires request { IsSoundIf (length state.now.memory) state.now.request }
        ensures value { let v = strata.now.value in IfOk result (λ replayer.
            replayer ≡ record (followed_from (canonical v) None (state_in state.now)) { strata = Some (stratum_begun v.strata 0) }) }
        ensures at { IfOk result (λ replayer. IsReplaying replayer state.now) }
    {
        let log = Lookup::of_strata(alloc, strata)?;
        Ok(begun(alloc, log, None, state))
    }
}

// The replay of a log, or of an interval of its commits, at a state of its play.
fn begun<M: Mode>(
    alloc: Global,
    log: Lookup<M>,
    interval: Option<Interval>,
    state: &State,
) -> Replayer<M>
    requires log { IsLog log.log }
    ensures { let s = state.now in (p : Progress) → Agrees s p →
        result ≡ followed log.log interval log.strata p s.used s.threads }
{
    let turn = now_in(&log, interval, state);
    Replayer {
        alloc,
        log,
        interval,
        turn,
        total: 0,
    }
}

impl<M: Mode> Replayer<M> {
    /// Whose commit is next, unless the replay has ended.
    pub fn head(&self) -> Option<Actor>
        ensures { result ≡ actor_of self.now.now }
    {
        match self.turn {
            TurnOrEnd::Turn(thread) => Some(Actor::Thread(thread)),
            TurnOrEnd::TurnOfDma => Some(Actor::Dma),
            TurnOrEnd::Ended(_) => None,
        }
    }

    /// How the replay ended, if it did.
    pub fn ended(&self) -> Option<End>
        ensures { result ≡ end_of self.now.now }
    {
        match self.turn {
            TurnOrEnd::Ended(end) => Some(end),
            TurnOrEnd::Turn(_) | TurnOrEnd::TurnOfDma => None,
        }
    }

    /// How many threads the log may have.
    pub fn threads(&self) -> u8
        ensures value { result ≡ self.now.log.threads }
        ensures few { result ≤ most_threads }
    {
        self.log.threads()
    }

    /// The standard size of the log's chunks, in instructions.
    pub fn standard(&self) -> u32
        ensures { result ≡ self.now.log.s }
    {
        self.log.standard()
    }

    /// Whether a thread may commit although it isn't its turn: in strata, unless a part of a commit is done, while it has
    /// chunks left in the present one.
    pub fn joins_in(&self, thread: u8) -> bool
        ensures { result ≡ joins_in self.now.strata thread self.now.total }
    {
        self.total == 0 && self.log.takes(None, Actor::Thread(thread))
    }

    /// Whether an actor may commit now, if the replay goes on: it has the turn, or in strata it has chunks left in the present
    /// one.
    pub fn takes(&self, actor: Actor) -> bool
        requires going { is_over self.now.now ≡ false }
        ensures { (used : Used) (loads : List Load) (p : Sphere) → let b = cursor_of self.now used loads in
            IsTrue result ↔ (turn_in (Replay b) p actor ≡ None) }
    {
        let head = self.head();
        if self.total == 0 {
            self.log.takes(head, actor)
        } else {
            is_head(head, actor)
        }
    }

    /// Whether none of the present stratum's commits is done, in strata.
    pub fn begins(&self) -> Option<bool>
        ensures { result ≡ option_map begins self.now.strata }
    {
        self.log.begins()
    }

    /// The instructions of the present commit's pieces.
    pub fn pieces(&self) -> u32
        ensures { result ≡ self.now.total }
    {
        self.total
    }

    // ---- chunks

    /// How many instructions a chunk of a thread that has done so many commits may run: the logged size, or else a standard
    /// chunk's, and 1 at least. It is of the thread's present commit, less the pieces before it; or of the commit after that
    /// one.
    pub fn limit(&self, thread: u8, commits: u32, after: bool) -> u32
        requires { commits ≤ self.now.log.count }
        ensures value { (s : ℕ) (used : Used) (loads : List Load) →
            result ≡ chunk_limit_in after (Replay (cursor_of self.now used loads)) s thread commits }
        ensures of_thread { (s : ℕ) (used : Used) (loads : List Load) (t : Parts) → t.commits ≡ commits →
            result ≡ chunk_limit after s (Replay (cursor_of self.now used loads)) thread t }
        ensures most { result ≤ self.now.log.s }
    {
        if after {
            return self.log.limit(thread, commits + 1).max(1);
        }
        let whole = self.log.limit(thread, commits);
        whole.saturating_sub(self.pieces_of(thread)).max(1)
    }

    // The instructions of the pieces of the thread's present commit.
    fn pieces_of(&self, thread: u8) -> u32
        ensures { result ≡ pieces_of self.now.now thread self.now.total }
    {
        match self.turn {
            TurnOrEnd::Turn(head) if head == thread => self.total,
            TurnOrEnd::Turn(_) | TurnOrEnd::TurnOfDma | TurnOrEnd::Ended(_) => 0,
        }
    }

    /// A piece of the thread's present commit went, of `n` instructions, and the turn is its own until the commit is whole.
    /// All pieces of a commit are less than a standard chunk.
    pub fn accept_piece(&mut self, thread: u8, n: u32)
        requires going { is_over self.old.now ≡ false }
        requires few { self.old.total + n ≤ self.old.log.s }
        ensures value { self.new ≡ record self.old { now = Turn thread; total = self.old.total + n } }
        ensures at { (s : PlayState) → IsReplaying self.old s → IsReplaying self.new s }
    {
        self.turn = TurnOrEnd::Turn(thread);
        self.total += n;
    }

    /// Judges a chunk of so many instructions of a thread that may commit, which it left like this. If the replay diverges,
    /// only its end is noted.
    pub fn end_chunk(
        &mut self,
        number: u8,
        thread: &Thread,
        total: u32,
        state: &mut State,
    ) -> Verdict
        requires at { IsReplaying self.old state.old }
        requires going { is_over self.old.now ≡ false }
        requires thread { number < length state.old.threads }
        requires commits { thread.now.commits ≤ state.old.commits }
        ensures at { IsReplaying self.new state.new }
        ensures judged { (p : Progress) (r : Run) → Agrees state.old p → r.thread ≡ thread.now → r.n ≡ total →
            record { verdict = result; replay = self.new; state = state.new }
            ≡ judged self.old state.old p number (chunk_verdict self.old.log p state.old.used number r) }
    {
        match judge_chunk(&self.log, state.used, number, thread, total) {
            Ok(finish) => {
                let change = Change {
                    finish,
                    spawned: None,
                    request: state.request,
                };
                self.commit(number, &change, state);
                Verdict::Went
            }
            Err(why) => self.diverge(why, state),
        }
    }

    // ---- serial steps

    /// Judges the serial step of a thread that may commit, and does it. It gives what the step leaves, of which all but
    /// the words is in the state already; or why the replay leaves its log, and then only its end is noted. If memory runs
    /// out, all is as before.
    pub fn serve_step(
        &mut self,
        number: u8,
        state: &mut State,
    ) -> Result<Result<StepResult, Why>, OutOfMemory>
        requires at { IsReplaying self.old state.old }
        requires going { is_over self.old.now ≡ false }
        requires thread { number < length state.old.threads }
        ensures at { IsReplaying self.new state.new }
        ensures judged { (p : Progress) (t : Parts) → let s = state.old in Agrees s p → slice_get s.threads number ≡ Some t →
            let v = serial_verdict self.old.log p s.used number s.threads t s.memory in
            IfOk result (λ r. record { verdict = verdict_left r; replay = self.new; state = state.new } ≡ judged self.old s p number v) }
        ensures served { (p : Progress) (t : Parts) → let s = state.old in Agrees s p → slice_get s.threads number ≡ Some t →
            IfOk result (λ r. served_left r ≡ served_by (serial_verdict self.old.log p s.used number s.threads t s.memory)) }
        ensures still { OnErr result ((self.new ≡ self.old) × (state.new ≡ state.old)) }
    {
        match judge_step(self.alloc, &self.log, number, state)? {
            Ok(Done { left, finish }) => {
                let change = Change {
                    finish,
                    spawned: left.spawned,
                    request: left.request,
                };
                self.commit(number, &change, state);
                Ok(Ok(left))
            }
            Err(why) => {
                self.diverge(why, state);
                Ok(Err(why))
            }
        }
    }

    // ---- DMAs

    /// Judges the DMA whose turn it is, and gives the words that it stores, or why the replay leaves its log. If memory runs
    /// out, all is as before.
    pub fn serve_dma(&mut self, state: &mut State) -> Result<Result<Buffer, Why>, OutOfMemory>
        requires at { IsReplaying self.old state.old }
        requires turn { self.old.now ≡ TurnOfDma }
        ensures at { IsReplaying self.new state.new }
        ensures judged { (p : Progress) → let s = state.old in Agrees s p → let v = dma_verdict self.old.log p s.used in
            IfOk result (λ r. record { verdict = verdict_stored r; replay = self.new; state = state.new } ≡ dma_judged self.old s p v) }
        ensures stored { (p : Progress) → Agrees state.old p →
            IfOk result (λ r. transfer_verdict r ≡ dma_verdict self.old.log p state.old.used) }
        ensures still { OnErr result ((self.new ≡ self.old) × (state.new ≡ state.old)) }
    {
        match judge_dma(self.alloc, &self.log, state)? {
            Ok(words) => {
                self.commit_dma(state);
                Ok(Ok(words))
            }
            Err(why) => {
                self.diverge(why, state);
                Ok(Err(why))
            }
        }
    }

    /// The words that the DMA whose turn it is stores, or why the replay leaves its log there. Nothing changes.
    pub fn dma_words(&self, state: &State) -> Result<Result<Buffer, Why>, OutOfMemory>
        requires { IsReplaying self.now state.now }
        ensures { (p : Progress) → Agrees state.now p →
            IfOk result (λ r. transfer_verdict r ≡ dma_verdict self.now.log p state.now.used) }
    {
        judge_dma(self.alloc, &self.log, state)
    }

    /// How many bytes the DMA whose turn it is stores after their number, or why the replay leaves its log there. Nothing
    /// changes.
    pub fn dma_size(&self, state: &State) -> Result<u32, Why>
        ensures { (p : Progress) → Agrees state.now p →
            SaysSize result state.now.request (dma_verdict self.now.log p state.now.used) }
    {
        match transfer_of(&self.log, state) {
            Ok(transfer) => Ok(transfer.bytes.len() as u32),
            Err(why) => Err(why),
        }
    }

    // ---- what becomes of the replay

    /// The replay ends here, diverged for this reason.
    pub fn diverge(&mut self, why: Why, state: &State) -> Verdict
        ensures verdict { result ≡ Verdict.Diverged why }
        ensures replay { self.new ≡ diverged why state.now.commits self.old }
        ensures at { (s : PlayState) → IsReplaying self.old s → IsReplaying self.new s }
    {
        self.turn = TurnOrEnd::Ended(End::Diverged(state.commits, why));
        Verdict::Diverged(why)
    }

    // A thread's commit went.
    fn commit(&mut self, number: u8, change: &Change, state: &mut State)
        requires at { IsReplaying self.old state.old }
        requires left { is_over self.old.now ≡ false }
        requires thread { number < length state.old.threads }
        requires counted { change.now.finish.thread.commits ≤ state.old.commits + 1 }
        requires interrupts { change.now.finish.used.interrupts ≤ state.old.used.interrupts + 1 }
        requires spawned { AreNew (spawned_list change.now.spawned) }
        requires room { OnSome change.now.spawned (length state.old.threads < most_threads) }
        requires request { IsSoundIf (length state.old.memory) change.now.request }
        ensures at { IsReplaying self.new state.new }
        ensures judged { (p : Progress) (e : Effect) → Agrees state.old p → let c = change.now in
            e.thread ≡ c.finish.thread → e.spawned ≡ spawned_list c.spawned → e.request ≡ c.request →
            record { verdict = Verdict.Went; replay = self.new; state = state.new } ≡ judged self.old state.old p number (Goes e c.finish.used) }
    {
        settle(
            &mut state.threads,
            number,
            &change.finish.thread,
            change.spawned,
        );
        state.request = change.request;
        self.note_thread(number, state);
        state.used = change.finish.used;
        self.go_on(state);
    }

    // The thread has committed, and is the last one unless in strata another comes after it.
    fn note_thread(&mut self, number: u8, state: &mut State)
        requires within { IsWithinIf self.old.strata state.old.commits }
        requires few { state.old.commits + 1 < 2 ^ 32 }
        ensures replay { self.new ≡ record self.old { strata = option_map (after_thread number) self.old.strata } }
        ensures within { IsWithinIf self.new.strata (state.old.commits + 1) }
        ensures state { state.new ≡ record state.old { last = last_by self.old.strata number state.old.last } }
    {
        if self.log.comes_last(Actor::Thread(number)) {
            state.last = Some(number);
        }
        self.log.advance(Actor::Thread(number));
    }

    // A DMA went, which moves no turn of threads.
    fn commit_dma(&mut self, state: &mut State)
        requires at { IsReplaying self.old state.old }
        requires left { is_over self.old.now ≡ false }
        requires few { state.old.used.dmas + 1 < 2 ^ 32 }
        ensures at { IsReplaying self.new state.new }
        ensures judged { (p : Progress) (words : List Stored) → Agrees state.old p →
            record { verdict = Verdict.Went; replay = self.new; state = state.new } ≡ dma_judged self.old state.old p (DmaGoes words) }
    {
        state.request = None;
        state.used.dmas += 1;
        self.note_dma();
        self.go_on(state);
    }

    // A DMA is a stratum by itself.
    fn note_dma(&mut self)
        requires { AreFewIf self.old.strata }
        ensures { self.new ≡ record self.old { strata = option_map after_dma self.old.strata } }
    {
        self.log.advance(Actor::Dma);
    }

    // One commit more is done, after which the end is looked at.
    fn go_on(&mut self, state: &mut State)
        requires { state.old.commits + 1 < 2 ^ 32 }
        ensures state { state.new ≡ record state.old { commits = state.old.commits + 1 } }
        ensures replay { (p : Progress) → Agrees state.new p → let r = self.old in
            self.new ≡ followed r.log r.interval r.strata p state.new.used state.new.threads }
    {
        state.commits += 1;
        self.total = 0;
        self.turn = now_in(&self.log, self.interval, state);
    }
}

/// What a thread's commit leaves in its sphere.
#[derive(Clone, Copy)]
struct Change {
    finish: Finish,
    spawned: Option<Thread>,
    request: Option<Request>,
}
