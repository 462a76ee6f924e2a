//! How many chunks of each thread a stratum has.
ghost use Rattle.std.specs.Prelude.{◌≡◌, ◌+◌, ◌<◌, length, replicate, slice_index, slice_set, IfOk};

use dl_entry::{OutOfMemory, Sequence};
use std::alloc::Global;
use std::marker::Model;

/// How many chunks there are of each thread that is counted, at most 255 of each.
#[derive(Drop)]
pub struct Counts {
    each: Vec<u8>,
}

impl Model for Counts {
    ghost use Rattle.std.specs.Prelude.{List, ℕ};

    ghost Value = { List ℕ };

    ghost view = { λ c. c.each.items };
}

impl Counts {
    /// None of so many threads.
    pub fn none(alloc: Global, threads: u8) -> Result<Counts, OutOfMemory>
        ensures { IfOk result (λ counts. counts ≡ replicate threads 0) }
    {
        Ok(Counts {
            each: vec![in alloc; 0; threads as usize]?,
        })
    }

    /// How many of a thread.
    pub fn of(&self, thread: u8) -> u8
        requires { thread < length self.now }
        ensures { result ≡ slice_index self.now thread }
    {
        self.each[thread as usize]
    }

    /// Counts one more.
    pub fn add(&mut self, thread: u8)
        requires thread { thread < length self.old }
        requires few { slice_index self.old thread < 255 }
        ensures { self.new ≡ slice_set self.old thread (slice_index self.old thread + 1) }
    {
        self.each[thread as usize] += 1;
    }

    /// The counts, thread by thread.
    pub fn into_bytes(self) -> Sequence<u8>
        ensures { result ≡ self }
    {
        Sequence::from_vec(self.each)
    }
}
