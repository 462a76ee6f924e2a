//! The epochs of a recording.
ghost use Rattle.std.specs.Prelude.{◌≡◌, ◌≢◌, ℕ, ◌-◌, ◌<◌, ◌≤◌, ◌^◌, [], Some, slice_index, slice_get, option_map, IsOk, IsTrue};
ghost use Rattle.std.specs.Prelude.{OnOk, OnErr};
ghost use Rattle.spec_play.specs.Epochs.{commits_of, commits_before, inputs_before, begins_at, is_due, with_epoch, given_up};
ghost use Rattle.spec_play.specs.Epochs.{without_first};
ghost use Rattle.dl_kernel.specs.States.{state_in};
ghost use Rattle.dl_record.specs.Epochs.{base_state, unraised_of};

use dl_entry::OutOfMemory;
use dl_kernel::{State, Thread, Threads};
use dl_mem::Snapshot;
use dl_moments::THREADS;
use std::alloc::Global;
use std::marker::Model;

/// Where a recording begins: how many commits came before, and the state there.
pub struct Base<'a> {
    pub at: u32,
    pub state: &'a State<Snapshot>,
}

/// Where an epoch begins: the state there, and how many inputs came before.
#[derive(Drop)]
pub(crate) struct Epoch {
    pub state: State<Snapshot>,
    pub inputs: u32,
}

impl Model for Epoch {
    ghost use Rattle.spec_play.specs.Epochs.{Epoch};
    ghost use Rattle.dl_kernel.specs.States.{state_in};

    ghost Value = { Epoch };

    ghost view = { λ e. record { state = state_in e.state; inputs = e.inputs } };
}

/// How many commits an epoch has, how many epochs are kept, and those that have begun and are kept, the earliest first.
#[derive(Drop)]
pub(crate) struct Epochs {
    size: u32,
    keep: u32,
    begun: Vec<Epoch>,
}

impl Model for Epochs {
    ghost use Rattle.std.specs.Prelude.{nat_lt, vec_len, vec_capacity};
    ghost use Rattle.dl_record.specs.Epochs.{EpochList};

    ghost Value = { EpochList };

    ghost view = { λ e. record {
      epochs = record { size = e.size; keep = e.keep; begun = e.begun.items };
      room = nat_lt (vec_len e.begun) (vec_capacity e.begun);
    } };
}

impl Epochs {
    /// None has begun yet; this takes no memory yet.
    pub fn new(alloc: Global, size: u32, keep: u32) -> Epochs
        ensures { result.epochs ≡ record { size = size; keep = keep; begun = [] } }
    {
        Epochs {
            size,
            keep,
            begun: Vec::new(alloc),
        }
    }

    /// Makes room for one more.
    pub fn reserve(&mut self) -> Result<(), OutOfMemory>
        ensures epochs { self.new.epochs ≡ self.old.epochs }
        ensures ok { OnOk result (IsTrue self.new.room) }
        ensures room { IsTrue self.old.room → IsOk result }
    {
        self.begun.reserve(1)?;
        Ok(())
    }

    /// Whether one is to begin after so many commits.
    pub fn is_due(&self, commits: u32) -> bool
        requires { 1 ≤ self.now.epochs.size }
        ensures { result ≡ is_due commits self.now.epochs }
    {
        commits % self.size == 0 && !self.begins_at(commits)
    }

    fn begins_at(&self, commits: u32) -> bool
        ensures { result ≡ begins_at commits self.now.epochs.begun }
    {
        for epoch in &self.begun {
            if epoch.state.commits == commits {
                return true;
            }
        }
        false
    }

    /// One more begins. If there is room, it isn't refused.
    pub fn begin(&mut self, epoch: Epoch) -> Result<(), OutOfMemory>
        ensures ok { OnOk result (self.new.epochs ≡ with_epoch epoch self.old.epochs) }
        ensures err { OnErr result (self.new.epochs ≡ self.old.epochs) }
        ensures room { IsTrue self.old.room → IsOk result }
    {
        self.begun.push(epoch)?;
        Ok(())
    }

    /// The earliest and the one after it, if there are more than are kept.
    pub fn given_up(&self) -> Option<(&Epoch, &Epoch)>
        ensures { option_map (λ p. (p.0.now, p.1.now)) result ≡ given_up self.now.epochs.keep self.now.epochs.begun }
    {
        if self.begun.len() <= self.keep as usize {
            return None;
        }
        Some((self.begun.first()?, self.begun.get(1)?))
    }

    /// Gives up the earliest.
    pub fn drop_first(&mut self)
        ensures { self.new.epochs ≡ without_first self.old.epochs }
    {
        let n = self.begun.len().min(1);
        self.begun.drain(..n);
    }

    /// How many commits came before the earliest.
    pub fn commits_before(&self) -> u32
        ensures { result ≡ commits_before self.now.epochs.begun }
    {
        match self.begun.first() {
            Some(first) => first.state.commits,
            None => 0,
        }
    }

    /// How many inputs came before the earliest.
    pub fn inputs_before(&self) -> u32
        ensures { result ≡ inputs_before self.now.epochs.begun }
    {
        match self.begun.first() {
            Some(first) => first.inputs,
            None => 0,
        }
    }

    /// Where the earliest begins.
    pub fn base(&self) -> Base<'_>
        requires { self.now.epochs.begun ≢ [] }
        ensures at { result.at ≡ commits_before self.now.epochs.begun }
        ensures state { base_state (Some self.now.epochs) ≡ Some (state_in result.state.now) }
    {
        let state = &self.begun[0].state;
        Base {
            at: state.commits,
            state,
        }
    }
}

/// How many commits each thread had done.
pub(crate) fn done_of(threads: &Threads) -> [u32; THREADS]
    ensures { (t : ℕ) → slice_index result t ≡ commits_of (slice_get threads.now t) }
{
    let mut done = [0; THREADS];
    for n in 0..threads.len() {
        if let Some(thread) = threads.get(n) {
            done[usize::from(n)] = thread.commits();
        }
    }
    done
}

/// After how many commits of each thread an interrupt of it wasn't raised yet.
pub(crate) fn unraised_of(threads: &Threads) -> [u32; THREADS]
    requires { (t : ℕ) → commits_of (slice_get threads.now t) < 2 ^ 32 - 1 }
    ensures { (t : ℕ) → slice_index result t ≡ unraised_of (slice_get threads.now t) }
{
    let mut starts = [0; THREADS];
    for n in 0..threads.len() {
        if let Some(thread) = threads.get(n) {
            starts[usize::from(n)] = unraised(thread);
        }
    }
    starts
}

fn unraised(thread: &Thread) -> u32
    requires { thread.now.commits < 2 ^ 32 - 1 }
    ensures { result ≡ unraised_of (Some thread.now) }
{
    if thread.mask() {
        thread.commits() + 1
    } else {
        thread.commits()
    }
}
