//! The threads of a sphere, by number.
ghost use Rattle.std.specs.Prelude.{◌≡◌, ◌%◌, ◌<◌, ◌≤◌, List, [], ◌∷◌, ◌++◌, length, slice_get, slice_set, option_copied, nat_lt, if◌then◌else◌};
ghost use Rattle.spec_isa.specs.Numbers.{row_places};
ghost use Rattle.spec_isa.specs.Threads.{started};

use crate::state::Thread;
use std::marker::Model;

/// How many threads a row has places for.
pub const PLACES: usize = 63;

/// The threads of a sphere, at least 1 and at most as many as a row has places for, seen as the list of their parts.
#[derive(Debug, Drop)]
pub struct Threads {
    row: [Thread; PLACES],
    len: u8,
}

impl Model for Threads {
    ghost use Rattle.std.specs.Prelude.{◌≡◌, ◌<◌, ◌≤◌, List, length, take};
    ghost use Rattle.spec_isa.specs.Numbers.{row_places};
    ghost use Rattle.spec_isa.specs.declared.thread.Parts.{Parts};

    ghost Value = { List Parts };

    ghost view = { λ a. take a.len a.row };

    ghost invariant = { λ a. (0 < a.len) × (a.len ≤ row_places) × (length a.row ≡ row_places) };
}

impl Threads {
    /// Thread 0 alone, at `entry`.
    pub fn start(entry: u32) -> Self
        requires { entry % 4 ≡ 0 }
        ensures { result ≡ started entry ∷ [] }
    {
        Threads {
            row: [Thread::started(entry); PLACES],
            len: 1,
        }
    }

    /// The same threads again.
    pub fn again(&self) -> Threads
        ensures { result ≡ self.now }
    {
        Threads {
            row: self.row,
            len: self.len,
        }
    }

    /// How many there are.
    pub fn len(&self) -> u8
        ensures value { result ≡ length self.now }
        ensures some { 0 < result }
        ensures few { result ≤ row_places }
    {
        self.len
    }

    /// Thread `n`, if there is one.
    pub fn get(&self, n: u8) -> Option<&Thread>
        ensures { option_copied result ≡ slice_get self.now n }
    {
        if n < self.len {
            Some(&self.row[n as usize])
        } else {
            None
        }
    }

    /// Puts `thread` in the place of thread `n`.
    pub fn set(&mut self, n: u8, thread: &Thread)
        requires { n < length self.old }
        ensures { self.new ≡ slice_set self.old n thread.now }
    {
        self.row[n as usize] = *thread;
    }

    /// Adds a thread at the end. If no place is free, gives false and changes nothing.
    pub fn add(&mut self, thread: &Thread) -> bool
        ensures added { result ≡ nat_lt (length self.old) row_places }
        ensures threads { self.new ≡ (if result then self.old ++ thread.now ∷ [] else self.old) }
    {
        if usize::from(self.len) == PLACES {
            return false;
        }
        self.row[self.len as usize] = *thread;
        self.len += 1;
        true
    }
}
