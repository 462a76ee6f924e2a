//! The threads of a tail at its base.
ghost use Rattle.std.specs.Prelude.{◌≡◌, ◌+◌, ◌<◌, ◌≤◌, ◌^◌, All, length, map};
ghost use Rattle.dl_entry.specs.Numbers.{most_threads};
ghost use Rattle.spec_isa.specs.Threads.{IsThread};
ghost use Rattle.spec_tail.specs.Later.{raised_at};
ghost use Rattle.spec_tail.specs.Playing.{uncounted as uncounted_thread};
ghost use Rattle.spec_tail.specs.Tails.{IsTail};
ghost use Rattle.dl_serial.specs.Tails.{raised_in};

use dl_kernel::{Thread, Threads, interrupted, takes_interrupt, thread_at};
use dl_tail::{Tail, first_interrupt};
use spec_isa::thread::Parts;

/// The threads at the base, with their commits counted from there, after the interrupts that are logged for their first
/// commits; how many these were; and whether a thread couldn't take one, so that no more were tried.
#[derive(Drop)]
pub struct Raised {
    pub threads: Threads,
    pub count: u32,
    pub refused: bool,
}

/// Applies the interrupts at the base, one thread after another.
pub fn raise(tail: &Tail) -> Raised
    ensures raised { raised_in result ≡ raised_at tail.now }
    ensures tail { IsTail tail.now }
{
    let mut threads = uncounted(tail.parts().threads.as_slice());
    let mut count = 0;
    for number in 0..threads.len() {
        if let Some(value) = first_interrupt(tail, number) {
            let thread = thread_at(&threads, number);
            if !takes_interrupt(&thread) {
                return Raised {
                    threads,
                    count,
                    refused: true,
                };
            }
            threads.set(number, &interrupted(value, &thread));
            count += 1;
        }
    }
    Raised {
        threads,
        count,
        refused: false,
    }
}

// The threads, none of whose commits is counted.
fn uncounted(threads: &[Parts]) -> Threads
    requires some { 0 < length threads.now }
    requires few { length threads.now ≤ most_threads }
    requires threads { All IsThread threads.now }
    ensures { result ≡ map uncounted_thread threads.now }
{
    let (first, others) = threads.split_at(1);
    let mut row = Threads::start(0);
    row.set(0, &with_commits(&first[0], 0));
    for parts in others {
        row.add(&with_commits(parts, 0));
    }
    row
}

/// A thread with another number of commits.
pub fn with_commits(parts: &Parts, commits: u32) -> Thread
    requires { IsThread parts.now }
    ensures { result ≡ record parts.now { commits = commits } }
{
    Thread::from_parts(&Parts { commits, ..*parts })
}
