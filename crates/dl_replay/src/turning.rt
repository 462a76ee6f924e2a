//! Whose turn it is, or how the replay ends: looked at before the first commit and after each whole one.
ghost use Rattle.std.specs.Prelude.{◌≡◌, map};
ghost use Rattle.spec_kernel.specs.Interrupts.{is_live};
ghost use Rattle.spec_play.specs.Progress.{Progress};
ghost use Rattle.spec_play.specs.Turns.{turn_of, at_end, has_left_over};
ghost use Rattle.spec_play.specs.Intervals.{at_end_of_log, now_in};
ghost use Rattle.spec_sphere.specs.sphere.Commits.{now_by};
ghost use Rattle.dl_replay.specs.Following.{turn_seen};
ghost use Rattle.dl_replay.specs.Replays.{Agrees};
ghost use Rattle.dl_replay.specs.Lists.{head_of};

use crate::counting::commits_of;
use crate::lookup::Lookup;
use crate::turn_or_end::TurnOrEnd;
use dl_entry::{Actor, End, Why};
use dl_kernel::{State, live_of, lives};
use dl_mode::Mode;
use dl_thread::Threads;
use spec_log::ModeName;
use spec_play::{Interval, Used};

/// Whose turn it is at a state of the log's play, or of its strata, if all commits are replayed or those of an interval.
pub fn now_in<M: Mode>(log: &Lookup<M>, interval: Option<Interval>, state: &State) -> TurnOrEnd
    ensures { (p : Progress) → Agrees state.now p → let s = state.now in let l = log.now in
        turn_seen result ≡ now_in interval l.log.count s.commits (now_by l.strata l.log p s.used s.threads) }
{
    match interval {
        None => now_by(log, state),
        // the next turn isn't looked at if the log has more
        Some(interval) if interval.last <= state.commits && state.commits < log.count() => {
            TurnOrEnd::Ended(End::At(state.commits))
        }
        Some(_) => at_end_of_log(now_by(log, state)),
    }
}

// An interval that has all its commits ends so, whether or not the log has more.
fn at_end_of_log(turn: TurnOrEnd) -> TurnOrEnd
    ensures { turn_seen result ≡ at_end_of_log (turn_seen turn) }
{
    match turn {
        TurnOrEnd::Ended(End::Complete(commits)) => TurnOrEnd::Ended(End::At(commits)),
        TurnOrEnd::Turn(_) | TurnOrEnd::TurnOfDma | TurnOrEnd::Ended(_) => turn,
    }
}

// In the log's own play, or in strata.
fn now_by<M: Mode>(log: &Lookup<M>, state: &State) -> TurnOrEnd
    ensures { (p : Progress) → Agrees state.now p → let s = state.now in let l = log.now in
        turn_seen result ≡ now_by l.strata l.log p s.used s.threads }
{
    if state.commits < log.count() {
        let actor = next_actor(log, state);
        turn_of(state.commits, &state.threads, actor)
    } else {
        at_end(
            state.commits,
            has_left_over(log, state.used, &state.threads),
        )
    }
}

// The actor that comes next: the one that the log names, or the head of strata.
fn next_actor<M: Mode>(log: &Lookup<M>, state: &State) -> Option<Actor>
    ensures { let s = state.now in result ≡ head_of log.now s.commits s.last (map is_live s.threads) }
{
    match M::name() {
        ModeName::OrderSize | ModeName::OrderOnly => log.head_in_order(state.commits),
        ModeName::Picolog => {
            let live = live_of(&state.threads);
            let live = &live[..usize::from(state.threads.len())];
            log.head(state.commits, state.last, live)
        }
    }
}

// A thread whose turn it is must live.
fn turn_of(done: u32, threads: &Threads, actor: Option<Actor>) -> TurnOrEnd
    ensures { turn_seen result ≡ turn_of done threads.now actor }
{
    match actor {
        Some(Actor::Dma) => TurnOrEnd::TurnOfDma,
        Some(Actor::Thread(number)) if lives(threads, number) => TurnOrEnd::Turn(number),
        Some(Actor::Thread(_)) | None => TurnOrEnd::Ended(End::Diverged(done, Why::NoThread)),
    }
}

fn at_end(done: u32, left_over: bool) -> TurnOrEnd
    ensures { turn_seen result ≡ at_end done left_over }
{
    if left_over {
        TurnOrEnd::Ended(End::Diverged(done, Why::LeftOver))
    } else {
        TurnOrEnd::Ended(End::Complete(done))
    }
}

// Whether a size, an interrupt, an input or a DMA was never used.
#[tactic(auto, unfolding(spec_play::specs::Turns::has_left_over))]
fn has_left_over<M: Mode>(log: &Lookup<M>, used: Used, threads: &Threads) -> bool
    ensures { result ≡ has_left_over log.now.log used threads.now }
{
    if !log.are_sizes_used(&commits_of(threads)) {
        return true;
    }
    log.has_interrupt(used.interrupts)
        || log.input(used.inputs).is_some()
        || log.dma(used.dmas).is_some()
}
