//! One bank as flags.
ghost use Rattle.std.specs.Prelude.{◌≡◌, ◌<◌, length, IfOk};
ghost use Rattle.std.specs.FinSet as set;
ghost use Rattle.spec_engine.specs.Signatures.{meets};

use std::alloc::{AllocError, Global};
use std::marker::Model;

// The places that are set, one flag for each.
#[derive(Debug, Drop)]
pub(crate) struct Flags {
    flags: Vec<bool>,
}

impl Model for Flags {
    ghost use Rattle.std.specs.Coded.{codes};
    ghost use Rattle.spec_engine.specs.Signatures.{places_code};
    ghost use Rattle.dl_sig.specs.Banks.{Places, of_flags};

    ghost Value = { Places };

    ghost coded = { Prim.hlevel (codes, places_code) };

    ghost view = { λ b. of_flags b.flags.items };
}

impl Flags {
    ghost use Rattle.dl_sig.specs.Banks.{no_place, with_place, with_places};

    // A bank of `size` places, none of which is set.
    pub(crate) fn new(alloc: Global, size: u32) -> Result<Flags, AllocError>
        ensures { IfOk result (λ b. b ≡ no_place size) }
    {
        Ok(Flags {
            flags: vec![in alloc; false; size as usize]?,
        })
    }

    pub(crate) fn set(&mut self, place: u32)
        requires { place < self.old.size }
        ensures { self.new ≡ with_place place self.old }
    {
        self.flags[place as usize] = true;
    }

    pub(crate) fn clear(&mut self)
        ensures { self.new ≡ no_place self.old.size }
    {
        self.flags.fill(false);
    }

    pub(crate) fn has(&self, place: u32) -> bool
        requires { place < self.now.size }
        ensures { result ≡ set.contains self.now.set place }
    {
        self.flags[place as usize]
    }

    // Whether both have some place set.
    pub(crate) fn meets(&self, other: &Flags) -> bool
        requires { other.now.size ≡ self.now.size }
        ensures { result ≡ meets self.now.set other.now.set }
    {
        for i in 0..self.flags.len() {
            if self.flags[i] && other.flags[i] {
                return true;
            }
        }
        false
    }

    // Sets the other's places too.
    pub(crate) fn join(&mut self, other: &Flags)
        requires { other.now.size ≡ self.old.size }
        ensures { self.new ≡ with_places other.now self.old }
    {
        for i in 0..self.flags.len() {
            self.flags[i] |= other.flags[i];
        }
    }
}
