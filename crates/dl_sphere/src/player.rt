//! The replay of a log in any of the three modes, or of strata.
ghost use Rattle.std.specs.Prelude.{◌≡◌, ◌↔◌, ℕ, List, ◌<◌, ◌≤◌, ◌+◌, IfOk, IfSome, OnOk, OnErr, IsTrue, None, Some, false, length, slice_get, option_map};
ghost use Rattle.dl_entry.specs.Numbers.{most_threads};
ghost use Rattle.spec_isa.specs.declared.thread.Parts.{Parts};
ghost use Rattle.spec_isa.specs.declared.thread.Load.{Load};
ghost use Rattle.spec_isa.specs.Runs.{Run};
ghost use Rattle.spec_play.specs.Progress.{Progress};
ghost use Rattle.spec_play.specs.Resuming.{IsBounded};
ghost use Rattle.spec_play.specs.Turns.{Turn, TurnOfDma};
ghost use Rattle.spec_play.specs.Transfers.{dma_verdict};
ghost use Rattle.spec_play.specs.Verdicts.{chunk_verdict, serial_verdict};
ghost use Rattle.spec_play.specs.declared.used.Used.{Used};
ghost use Rattle.spec_sphere.specs.sphere.Spheres.{Replay, Sphere, actor_of, is_over, joins_in, turn_in};
ghost use Rattle.spec_sphere.specs.promises.Sound.{IsSoundIf};
ghost use Rattle.spec_strata.specs.Canonical.{canonical};
ghost use Rattle.spec_strata.specs.Standing.{stratum_begun};
ghost use Rattle.dl_kernel.specs.States.{PlayState as At, state_in};
ghost use Rattle.dl_mode.specs.Strata.{begins};
ghost use Rattle.dl_replay.specs.Following.{cursor_of, diverged, end_of, followed_from};
ghost use Rattle.dl_replay.specs.Judged.{dma_judged, judged};
ghost use Rattle.dl_replay.specs.Judging.{transfer_verdict};
ghost use Rattle.dl_replay.specs.Left.{SaysSize, served_by, served_left, verdict_left, verdict_stored};
ghost use Rattle.dl_replay.specs.Limits.{chunk_limit, chunk_limit_in};
ghost use Rattle.dl_replay.specs.Replays.{Agrees, IsReplaying};
ghost use Rattle.dl_sphere.specs.Played.{following_of};

use dl_entry::{Actor, End, OutOfMemory, Why};
use dl_kernel::{State, StepResult};
use dl_mode::{OrderAndSize, OrderOnly, PicoLog};
use dl_replay::{ReadyStrata, Replayer, StrataMode, Verdict};
use dl_thread::Thread;
use dl_wbuf::Buffer;
use spec_log::{Log, ModeName};
use spec_play::Interval;
use std::alloc::Global;
use std::marker::Model;
use std::rc::Rc;

#[derive(Drop)]
pub(crate) enum Players {
    OrderSize(Replayer<OrderAndSize>),
    OrderOnly(Replayer<OrderOnly>),
    Picolog(Replayer<PicoLog>),
    Strata(Replayer<StrataMode>),
}

// Does the same with the replayer of whichever mode.
macro_rules! in_mode {
    ($players:expr, $one:ident => $done:expr) => {
        match $players {
            Players::OrderSize($one) => $done,
            Players::OrderOnly($one) => $done,
            Players::Picolog($one) => $done,
            Players::Strata($one) => $done,
        }
    };
}

// A replayer of one of the modes of logs, or of strata, and how its replay ended, if it did. The end is kept beside it, since it
// is asked for at each step of a core.
#[derive(Drop)]
pub(crate) struct Player {
    players: Players,
    ended: Option<End>,
}

impl Model for Player {
    ghost use Rattle.std.specs.Prelude.{◌≡◌};
    ghost use Rattle.dl_replay.specs.Following.{Following, end_of};
    ghost use Rattle.dl_sphere.specs.Played.{following_of};

    ghost Value = { Following };

    ghost view = { λ p. following_of p.players };

    ghost invariant = { λ p. p.ended ≡ end_of (following_of p.players).now };
}

impl Player {
    // The replay of a log, or of an interval of it, from a state of its play on.
    pub(crate) fn at(
        alloc: Global,
        log: &Log,
        interval: Option<Interval>,
        state: &State,
    ) -> Result<Player, OutOfMemory>
        requires bounded { IsBounded log.now (state_in state.now) }
        requires request { IsSoundIf (length state.now.memory) state.now.request }
        ensures from { IfOk result (λ player. player ≡ followed_from log.now interval (state_in state.now)) }
        ensures at { IfOk result (λ player. IsReplaying player state.now) }
    {
        let players = match log.parts().mode {
            ModeName::OrderSize => Players::OrderSize(Replayer::at(alloc, log, interval, state)?),
            ModeName::OrderOnly => Players::OrderOnly(Replayer::at(alloc, log, interval, state)?),
            ModeName::Picolog => Players::Picolog(Replayer::at(alloc, log, interval, state)?),
        };
        let ended = end_of(&players);
        Ok(Player { players, ended })
    }

    // The replay of strata, of which nothing is done, from a state in which no commit is.
    pub(crate) fn of_strata(
        alloc: Global,
        strata: &Rc<ReadyStrata>,
        state: &State,
    ) -> Result<Player, OutOfMemory>
        requires start { state.now.commits ≡ 0 }
        requires bounded { IsBounded (canonical strata.now.value) (state_in state.now) }
        requires request { IsSoundIf (length state.now.memory) state.now.request }
        ensures from { let v = strata.now.value in IfOk result (λ player.
            player ≡ record (followed_from (canonical v) None (state_in state.now)) { strata = Some (stratum_begun v.strata 0) }) }
        ensures at { IfOk result (λ player. IsReplaying player state.now) }
    {
        let replayer = Replayer::of_strata(alloc, strata, state)?;
        let players = Players::Strata(replayer);
        let ended = end_of(&players);
        Ok(Player { players, ended })
    }

    pub(crate) fn head(&self) -> Option<Actor>
        ensures { result ≡ actor_of self.now.now }
    {
        in_mode!(&self.players, replayer => replayer.head())
    }

    pub(crate) fn ended(&self) -> Option<End>
        ensures { result ≡ end_of self.now.now }
    {
        self.ended
    }

    // Whether an actor may commit now.
    pub(crate) fn takes(&self, actor: Actor) -> bool
        requires { is_over self.now.now ≡ false }
        ensures { (used : Used) (loads : List Load) (p : Sphere) → let b = cursor_of self.now used loads in
            IsTrue result ↔ (turn_in (Replay b) p actor ≡ None) }
    {
        in_mode!(&self.players, replayer => replayer.takes(actor))
    }

    // Whether a thread may commit although it isn't its turn, in strata.
    pub(crate) fn joins_in(&self, thread: u8) -> bool
        ensures { result ≡ joins_in self.now.strata thread self.now.total }
    {
        in_mode!(&self.players, replayer => replayer.joins_in(thread))
    }

    // Whether none of the present stratum's commits is done, in strata.
    pub(crate) fn begins(&self) -> Option<bool>
        ensures { result ≡ option_map begins self.now.strata }
    {
        in_mode!(&self.players, replayer => replayer.begins())
    }

    pub(crate) fn pieces(&self) -> u32
        ensures { result ≡ self.now.total }
    {
        in_mode!(&self.players, replayer => replayer.pieces())
    }

    // How many threads the log may have.
    pub(crate) fn threads(&self) -> u8
        ensures value { result ≡ self.now.log.threads }
        ensures few { result ≤ most_threads }
    {
        in_mode!(&self.players, replayer => replayer.threads())
    }

    // The standard size of the log's chunks.
    pub(crate) fn standard(&self) -> u32
        ensures { result ≡ self.now.log.s }
    {
        in_mode!(&self.players, replayer => replayer.standard())
    }

    // How many instructions a chunk may run of the thread, which has done so many commits.
    pub(crate) fn limit(&self, thread: u8, commits: u32, after: bool) -> u32
        requires { commits ≤ self.now.log.count }
        ensures value { (s : ℕ) (used : Used) (loads : List Load) →
            result ≡ chunk_limit_in after (Replay (cursor_of self.now used loads)) s thread commits }
        ensures of_thread { (s : ℕ) (used : Used) (loads : List Load) (t : Parts) → t.commits ≡ commits →
            result ≡ chunk_limit after s (Replay (cursor_of self.now used loads)) thread t }
        ensures most { result ≤ self.now.log.s }
    {
        in_mode!(&self.players, replayer => replayer.limit(thread, commits, after))
    }

    // A piece of the thread's present commit went, of `n` instructions.
    pub(crate) fn accept_piece(&mut self, thread: u8, n: u32)
        requires going { is_over self.old.now ≡ false }
        requires few { self.old.total + n ≤ self.old.log.s }
        ensures value { self.new ≡ record self.old { now = Turn thread; total = self.old.total + n } }
        ensures at { (s : At) → IsReplaying self.old s → IsReplaying self.new s }
    {
        in_mode!(&mut self.players, replayer => replayer.accept_piece(thread, n))
    }

    // Judges the last part of a chunk of so many instructions, which has left its thread so.
    pub(crate) fn end_chunk(
        &mut self,
        number: u8,
        thread: &Thread,
        total: u32,
        state: &mut State,
    ) -> Verdict
        requires going { is_over self.old.now ≡ false }
        requires at { IsReplaying self.old state.old }
        requires thread { number < length state.old.threads }
        requires commits { thread.now.commits ≤ state.old.commits }
        ensures at { IsReplaying self.new state.new }
        ensures judged { (p : Progress) (r : Run) → Agrees state.old p → r.thread ≡ thread.now → r.n ≡ total →
            record { verdict = result; replay = self.new; state = state.new }
            ≡ judged self.old state.old p number (chunk_verdict self.old.log p state.old.used number r) }
    {
        let verdict =
            in_mode!(&mut self.players, replayer => replayer.end_chunk(number, thread, total, state));
        self.ended = end_of(&self.players);
        verdict
    }

    // Judges a serial step, and does it.
    pub(crate) fn serve_step(
        &mut self,
        number: u8,
        state: &mut State,
    ) -> Result<Result<StepResult, Why>, OutOfMemory>
        requires going { is_over self.old.now ≡ false }
        requires at { IsReplaying self.old state.old }
        requires thread { number < length state.old.threads }
        ensures at { IsReplaying self.new state.new }
        ensures judged { (p : Progress) (t : Parts) → let s = state.old in Agrees s p → slice_get s.threads number ≡ Some t →
            let v = serial_verdict self.old.log p s.used number s.threads t s.memory in
            IfOk result (λ r. record { verdict = verdict_left r; replay = self.new; state = state.new } ≡ judged self.old s p number v) }
        ensures served { (p : Progress) (t : Parts) → let s = state.old in Agrees s p → slice_get s.threads number ≡ Some t →
            IfOk result (λ r. served_left r ≡ served_by (serial_verdict self.old.log p s.used number s.threads t s.memory)) }
        ensures still { OnErr result ((self.new ≡ self.old) × (state.new ≡ state.old)) }
    {
        let left = in_mode!(&mut self.players, replayer => replayer.serve_step(number, state));
        self.ended = end_of(&self.players);
        left
    }

    // Judges a DMA, and gives the words that it stores.
    pub(crate) fn serve_dma(
        &mut self,
        state: &mut State,
    ) -> Result<Result<Buffer, Why>, OutOfMemory>
        requires turn { self.old.now ≡ TurnOfDma }
        requires at { IsReplaying self.old state.old }
        ensures at { IsReplaying self.new state.new }
        ensures judged { (p : Progress) → let s = state.old in Agrees s p → let v = dma_verdict self.old.log p s.used in
            IfOk result (λ r. record { verdict = verdict_stored r; replay = self.new; state = state.new } ≡ dma_judged self.old s p v) }
        ensures stored { (p : Progress) → Agrees state.old p →
            IfOk result (λ r. transfer_verdict r ≡ dma_verdict self.old.log p state.old.used) }
        ensures still { OnErr result ((self.new ≡ self.old) × (state.new ≡ state.old)) }
    {
        let words = in_mode!(&mut self.players, replayer => replayer.serve_dma(state));
        self.ended = end_of(&self.players);
        words
    }

    // The words that a DMA would store, or why it diverges.
    pub(crate) fn dma_words(&self, state: &State) -> Result<Result<Buffer, Why>, OutOfMemory>
        requires { IsReplaying self.now state.now }
        ensures { (p : Progress) → Agrees state.now p →
            IfOk result (λ r. transfer_verdict r ≡ dma_verdict self.now.log p state.now.used) }
    {
        in_mode!(&self.players, replayer => replayer.dma_words(state))
    }

    // How many bytes a DMA would store, or why it diverges.
    pub(crate) fn dma_size(&self, state: &State) -> Result<u32, Why>
        ensures { (p : Progress) → Agrees state.now p →
            SaysSize result state.now.request (dma_verdict self.now.log p state.now.used) }
    {
        in_mode!(&self.players, replayer => replayer.dma_size(state))
    }

    // The replay ends here, diverged for this reason.
    pub(crate) fn diverge(&mut self, why: Why, state: &State) -> Verdict
        ensures replay { self.new ≡ diverged why state.now.commits self.old }
        ensures at { (s : At) → IsReplaying self.old s → IsReplaying self.new s }
    {
        let verdict = in_mode!(&mut self.players, replayer => replayer.diverge(why, state));
        self.ended = end_of(&self.players);
        verdict
    }
}

// How the replay ended, if it did.
fn end_of(players: &Players) -> Option<End>
    ensures { result ≡ end_of (following_of players.now).now }
{
    in_mode!(players, replayer => replayer.ended())
}
