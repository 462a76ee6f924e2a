//! The walk over a tail.
ghost use Rattle.std.specs.Prelude.{◌≡◌, ◌+◌, ◌<◌, ◌≤◌, ◌^◌, [], IfOk};
ghost use Rattle.dl_entry.specs.declared.End.{End};
ghost use Rattle.dl_entry.specs.declared.Why.{Why};
ghost use Rattle.spec_play.specs.declared.WalkEnd.{WalkEnd};
ghost use Rattle.spec_play.specs.Resuming.{IsBounded};
ghost use Rattle.spec_play.specs.States.{state_of};
ghost use Rattle.spec_play.specs.Walks.{walked_at};
ghost use Rattle.spec_tail.specs.Later.{walk_end_left, walked_left};
ghost use Rattle.spec_tail.specs.Playing.{begun as begun_by, counted_from, walk_end_from, walked as walked_in_all, walked_since};
ghost use Rattle.dl_kernel.specs.States.{state_in};
ghost use Rattle.dl_serial.specs.Starts.{CanGoOn};
ghost use Rattle.dl_serial.specs.Tails.{AreBelow, commits_at, played_from, raised_in, state_after};
ghost use Rattle.dl_serial.specs.Tails.{state_from_base, state_since, used_in_tail};
ghost use Rattle.dl_serial.specs.Walked.{walked_in};

use crate::raising::{Raised, raise, with_commits};
use crate::walked::Walked;
use crate::walking::play_state;
use dl_entry::{End, OutOfMemory, Sequence, Why};
use dl_kernel::{State, Threads, thread_at};
use dl_mem::Memory;
use dl_tail::{Tail, begun, dmas_passed, has_more_left, log_later};
use spec_log::Log;
use spec_play::{Used, WalkEnd};
use std::alloc::Global;

/// Plays a tail to its end: from the state at its base, the commits of its log. What is left has these commits, without
/// their stores. The commits of threads, of the state and up to the end are counted from the recording's start. As used count
/// the records of the tail's log that the play has taken, with the interrupts at the base.
pub fn walk_tail(alloc: Global, tail: &Tail) -> Result<Walked, OutOfMemory>
    ensures walked { IfOk result (λ w. walked_in w ≡ walked_in_all tail.now) }
    ensures stores { IfOk result (λ w. w.stores ≡ []) }
    ensures state { IfOk result (λ w. state_in w.state ≡ state_after tail.now) }
{
    let log = log_later(alloc, tail)?;
    let raised = raise(tail);
    let count = raised.count;
    let refused = raised.refused;
    let passed = dmas_passed(tail, &log);
    let state = state_at_base(alloc, tail, raised, passed)?;
    let mut walked = play_later(alloc, state, &log, refused)?;
    let left = has_more_left(tail, count, walked.state.used);
    walked.state.used = used_of_tail(walked.state.used, count, passed);
    Ok(counted_from_start(alloc, tail, walked, left))
}

// The state from which the log for later is played; of its DMAs so many are passed over.
fn state_at_base(
    alloc: Global,
    tail: &Tail,
    raised: Raised,
    dmas: u32,
) -> Result<State, OutOfMemory>
    ensures { IfOk result (λ state. state_in state ≡ state_from_base tail.now (raised_in raised) dmas) }
{
    let parts = tail.parts();
    Ok(State {
        memory: Memory::from_bytes(alloc, parts.memory.as_slice())?,
        threads: raised.threads,
        request: parts.request,
        last: parts.last,
        commits: 0,
        used: Used {
            inputs: 0,
            interrupts: 0,
            dmas,
        },
    })
}

// Plays a log from a state before its first commit; if an interrupt was refused there, no commit of it.
fn play_later(alloc: Global, state: State, log: &Log, refused: bool) -> Result<Walked, OutOfMemory>
    requires state { CanGoOn log.now (state_in state) }
    requires first { state.commits ≡ 0 }
    ensures walked { let y = played_from log.now (state_in state) refused in
        IfOk result (λ w. walked_in w ≡ walked_at log.now log.now.count y) }
    ensures state { let y = played_from log.now (state_in state) refused in
        IfOk result (λ w. state_in w.state ≡ state_of y) }
    ensures bounded { IfOk result (λ w. IsBounded log.now (state_in w.state)) }
{
    if refused {
        return Ok(stopped(alloc, state));
    }
    play_state(alloc, state, log, log.parts().count)
}

// A walk that has ended before its first commit, at an interrupt that was refused.
fn stopped(alloc: Global, state: State) -> Walked
    ensures { result ≡ record { commits = []; stores = []; state = state; end = WalkEnd.Ended (End.Diverged 0 Why.Interrupt) } }
{
    Walked {
        commits: Sequence::new(alloc),
        stores: Sequence::new(alloc),
        state,
        end: WalkEnd::Ended(End::Diverged(0, Why::Interrupt)),
    }
}

// ---- counted from the recording's start

// How much of a tail's log is used, if so much of its log for later is: the interrupts at the base are, and the DMAs that
// were passed over aren't.
fn used_of_tail(used: Used, raised: u32, passed: u32) -> Used
    requires few { raised + used.interrupts < 2 ^ 32 }
    requires passed { passed ≤ used.dmas }
    ensures { result ≡ used_in_tail raised passed used }
{
    Used {
        interrupts: raised + used.interrupts,
        dmas: used.dmas - passed,
        ..used
    }
}

// What a walk of the log for later leaves is what that of the tail does, once its commits are counted from the start.
fn counted_from_start(alloc: Global, tail: &Tail, walked: Walked, left: bool) -> Walked
    requires few { walked.state.commits ≤ tail.now.log.count }
    requires end { commits_at walked.end ≤ tail.now.log.count }
    requires threads { AreBelow walked.state.commits walked.state.threads }
    ensures walked { walked_in result ≡ walked_since tail.now (walked_left left (walked_in walked)) }
    ensures stores { result.stores ≡ [] }
    ensures state { state_in result.state ≡ state_since tail.now (state_in walked.state) }
{
    let base = tail.parts().base;
    let mut state = walked.state;
    add_begun(&mut state.threads, tail, state.commits);
    state.commits += base;
    Walked {
        commits: walked.commits,
        stores: Sequence::new(alloc),
        state,
        end: end_from(base, end_left(left, walked.end)),
    }
}

// Each thread with the commits that it had at the base.
fn add_begun(threads: &mut Threads, tail: &Tail, most: u32)
    requires few { most ≤ tail.now.log.count }
    requires below { AreBelow most threads.old }
    ensures { threads.new ≡ counted_from (begun_by tail.now.threads) 0 threads.old }
{
    let parts = tail.parts();
    let begun_threads = parts.threads.as_slice();
    for number in 0..threads.len() {
        let thread = thread_at(threads, number).parts();
        let commits = begun(begun_threads, number) + thread.commits;
        threads.set(number, &with_commits(&thread, commits));
    }
}

// An end that is complete only if nothing is left.
fn end_left(left: bool, end: WalkEnd) -> WalkEnd
    ensures { result ≡ walk_end_left left end }
{
    match end {
        WalkEnd::Ended(End::Complete(commits)) if left => {
            WalkEnd::Ended(End::Diverged(commits, Why::LeftOver))
        }
        WalkEnd::Ended(_) | WalkEnd::Reached(_) => end,
    }
}

fn end_from(base: u32, end: WalkEnd) -> WalkEnd
    requires { base + commits_at end < 2 ^ 32 }
    ensures { result ≡ walk_end_from base end }
{
    match end {
        WalkEnd::Ended(End::Complete(commits)) => WalkEnd::Ended(End::Complete(base + commits)),
        WalkEnd::Ended(End::At(commits)) => WalkEnd::Ended(End::At(base + commits)),
        WalkEnd::Ended(End::Diverged(commits, why)) => {
            WalkEnd::Ended(End::Diverged(base + commits, why))
        }
        WalkEnd::Reached(commits) => WalkEnd::Reached(base + commits),
    }
}
