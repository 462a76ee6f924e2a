//! Threads one by one: which of them live, what they take, and the end of a commit.
ghost use Rattle.std.specs.Prelude.{◌≡◌, ◌+◌, ◌-◌, ◌++◌, ◌<◌, ◌≤◌, ◌^◌, false, Some, OnSome, length, map, replicate, slice_get, slice_set, take};
ghost use Rattle.dl_entry.specs.Numbers.{most_threads};
ghost use Rattle.spec_isa.specs.Numbers.{row_places};
ghost use Rattle.spec_kernel.specs.Interrupts.{takes_interrupt, interrupted, is_live};
ghost use Rattle.spec_play.specs.Effects.{counted};
ghost use Rattle.dl_kernel.specs.Calls.{spawned_list};
ghost use Rattle.dl_kernel.specs.Threads.{lives};

use dl_thread::{PLACES, Parts, Thread, ThreadStatus, Threads};
use spec_isa::numbers::{A0, A1};

/// A thread that there is.
pub fn thread_at(threads: &Threads, number: u8) -> Thread
    requires { number < length threads.now }
    ensures thread { slice_get threads.now number ≡ Some result }
    ensures few { length threads.now ≤ most_threads }
{
    let _ = threads.len();
    match threads.get(number) {
        Some(thread) => *thread,
        None => unreachable!(),
    }
}

/// Puts a thread in the place of another, and one that was spawned after all.
pub fn settle(threads: &mut Threads, number: u8, thread: &Thread, spawned: Option<Thread>)
    requires thread { number < length threads.old }
    requires room { OnSome spawned (length threads.old < most_threads) }
    ensures { threads.new ≡ slice_set threads.old number thread.now ++ spawned_list spawned }
{
    threads.set(number, thread);
    if let Some(spawned) = spawned {
        threads.add(&spawned);
    }
}

/// The thread with one commit more, after which no word stays reserved.
pub fn counted(thread: &Thread) -> Thread
    requires { thread.now.commits + 1 < 2 ^ 32 }
    ensures { result ≡ counted thread.now }
{
    let parts = thread.parts();
    Thread::from_parts(&Parts {
        reservation: None,
        commits: parts.commits + 1,
        ..parts
    })
}

/// Whether the thread takes an interrupt: it is live, has a handler, and handles none.
pub fn takes_interrupt(thread: &Thread) -> bool
    ensures { result ≡ takes_interrupt thread.now }
{
    is_live(thread) && thread.handler() != 0 && !thread.mask()
}

/// The thread at its handler with the value in a0; pc, a0 and a1 are saved.
pub fn interrupted(value: u32, thread: &Thread) -> Thread
    ensures { result ≡ interrupted value thread.now }
{
    let mut parts = thread.parts();
    parts.saved_pc = parts.pc;
    parts.saved_a0 = parts.x[A0];
    parts.saved_a1 = parts.x[A1];
    parts.pc = parts.handler;
    parts.mask = true;
    parts.x[A0] = value;
    Thread::from_parts(&parts)
}

/// Which of the threads live, and false after the last one.
pub fn live_of(threads: &Threads) -> [bool; PLACES]
    ensures value { result ≡ map is_live threads.now ++ replicate (row_places - length threads.now) false }
    ensures first { take (length threads.now) result ≡ map is_live threads.now }
{
    let mut live = [false; PLACES];
    for number in 0..threads.len() {
        live[usize::from(number)] = lives(threads, number);
    }
    live
}

/// Whether there is a thread of that number, and it lives.
pub fn lives(threads: &Threads, number: u8) -> bool
    ensures { result ≡ lives (slice_get threads.now number) }
{
    match threads.get(number) {
        Some(thread) => is_live(thread),
        None => false,
    }
}

pub fn is_live(thread: &Thread) -> bool
    ensures { result ≡ is_live thread.now }
{
    match thread.status() {
        ThreadStatus::Live => true,
        ThreadStatus::Ended(_) | ThreadStatus::Fault(_) => false,
    }
}
