//! The trail of a log.
ghost use Rattle.std.specs.Prelude.{◌≡◌, ℕ, ◌*◌, ◌≤◌, IfOk};
ghost use Rattle.spec_play.specs.States.{state_after};
ghost use Rattle.spec_play.specs.Resuming.{HasDone};
ghost use Rattle.spec_interval.specs.Slices.{slice};
ghost use Rattle.dl_kernel.specs.States.{state_in};
ghost use Rattle.dl_trail.specs.Trails.{AreNumbers, commits_of, slice_in};

use crate::text::{Text, text_of};
use dl_elf::Image;
use dl_entry::OutOfMemory;
use dl_logfmt::copy_log;
use dl_serial::{Snapshot, State, keep_states, play_from};
use spec_log::Log;
use std::alloc::Global;
use std::marker::Model;

/// A log, and the states of its play on an image after every so many commits. States share the pages of memory to which
/// nothing was put between them.
#[derive(Drop)]
pub struct Trail {
    alloc: Global,
    log: Log,
    every: u32,
    kept: Vec<State<Snapshot>>,
    numbers: Vec<u32>,
}

impl Model for Trail {
    ghost use Rattle.std.specs.Prelude.{◌≡◌, ◌≤◌};
    ghost use Rattle.dl_serial.specs.Keeping.{AreKept};
    ghost use Rattle.dl_trail.specs.Trails.{Trail, commits_of, entry_of, memory_of};

    ghost Value = { Trail };

    ghost view = { λ t. record {
      log = t.log;
      memory = memory_of t.kept.items;
      entry = entry_of t.kept.items;
      every = t.every;
    } };

    ghost invariant = { λ t.
        (1 ≤ t.every) × AreKept t.log (memory_of t.kept.items) (entry_of t.kept.items) t.every t.kept.items
        × (t.numbers.items ≡ commits_of t.kept.items) };
}

impl Trail {
    /// Plays a log on its image to its end, and keeps the state before the first commit and after each `every` commits. Image
    /// and log are only read.
    pub fn new(alloc: Global, image: &Image, log: &Log, every: u32) -> Result<Trail, OutOfMemory>
        requires { 1 ≤ every }
        ensures { let i = image.now in
            IfOk result (λ t. t ≡ record { log = log.now; memory = i.bytes; entry = i.entry; every = every }) }
    {
        let kept = keep_states(alloc, image, log, every)?;
        Ok(Trail {
            alloc,
            log: copy_log(alloc, log)?,
            every,
            numbers: numbers_of(alloc, &kept)?,
            kept,
        })
    }

    /// The slice of the log from commit `i` up to but not commit `j`. It is played from the last state that is kept at or
    /// before `i`. The trail is only read.
    pub fn slice(&self, i: u32, j: u32) -> Result<Text, OutOfMemory>
        requires { i ≤ j }
        ensures { let t = self.now in
            IfOk result (λ text. slice_in text ≡ slice t.log t.memory t.entry i j) }
    {
        let start = self.start(i);
        let skipped = i - start.commits;
        let walked = play_from(self.alloc, start.resumed(self.alloc)?, &self.log, j)?;
        text_of(self.alloc, &walked, skipped, i)
    }

    // The last state that is kept at or before commit `i`.
    fn start(&self, i: u32) -> &State<Snapshot>
        ensures before { result.now.commits ≤ i }
        ensures done { let t = self.now in HasDone t.log t.memory t.entry result.now.commits }
        ensures state { let t = self.now in
            state_in result.now ≡ state_after t.log t.memory t.entry result.now.commits }
        ensures nearest { let t = self.now in (n : ℕ) → HasDone t.log t.memory t.entry (n * t.every) → n * t.every ≤ i →
            n * t.every ≤ result.now.commits }
    {
        let last = self.kept.len() - 1;
        let index = ((i / self.every) as usize).min(last);
        &self.kept[index]
    }

    /// The numbers of commits after which a state is kept: the multiples of `every`, from 0 on, that the log's play comes to.
    pub fn kept(&self) -> &[u32]
        ensures { AreNumbers self.now result.now }
    {
        &self.numbers
    }
}

// After how many commits each of the states is.
fn numbers_of(alloc: Global, kept: &[State<Snapshot>]) -> Result<Vec<u32>, OutOfMemory>
    ensures { IfOk result (λ numbers. numbers.items ≡ commits_of kept.now) }
{
    let mut numbers = Vec::with_capacity(alloc, kept.len())?;
    for state in kept {
        numbers.push(state.commits)?;
    }
    Ok(numbers)
}
