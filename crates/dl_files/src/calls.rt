//! Calls that are numbered from 0 in the order in which they are made, some of which fail.
ghost use Rattle.std.specs.Prelude.{◌≡◌, ◌↔◌, IsTrue, IfOk};
ghost use Rattle.dl_files.specs.Calls.{unmade, FailsNext, passed, faulted};

use std::alloc::{AllocError, Global};
use std::marker::Model;

// The number and the count stay as they are once they are `u64::MAX`.
#[derive(Drop)]
pub(crate) struct Calls {
    failing: Vec<u64>,
    made: u64,
    faults: u64,
}

impl Model for Calls {
    ghost use Rattle.dl_files.specs.Calls.{Numbered};

    ghost Value = { Numbered };

    ghost view = { λ calls. record {
      failing = calls.failing.items;
      made = calls.made;
      faults = calls.faults;
    } };
}

impl Calls {
    pub(crate) fn new(alloc: Global, failing: &[u64]) -> Result<Self, AllocError>
        ensures { IfOk result (λ calls. calls ≡ unmade failing.now) }
    {
        Ok(Self {
            failing: Vec::from_slice(alloc, failing)?,
            made: 0,
            faults: 0,
        })
    }

    pub(crate) fn faults(&self) -> u64
        ensures { result ≡ self.now.faults }
    {
        self.faults
    }

    pub(crate) fn fails_next(&self) -> bool
        ensures { IsTrue result ↔ FailsNext self.now }
    {
        self.failing.contains(&self.made)
    }

    pub(crate) fn pass(&mut self)
        ensures { self.new ≡ passed self.old }
    {
        self.made = self.made.saturating_add(1);
    }

    pub(crate) fn fault(&mut self)
        ensures { self.new ≡ faulted self.old }
    {
        self.made = self.made.saturating_add(1);
        self.faults = self.faults.saturating_add(1);
    }
}
