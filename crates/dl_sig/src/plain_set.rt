//! Signatures as plain flags.
ghost use Rattle.std.specs.Prelude.{◌≡◌};

use crate::flags::Flags;
use crate::place;
use crate::sig::Sig;
use std::alloc::{AllocError, Global};
use std::marker::Model;

/// A signature whose banks have one flag for each place.
#[derive(Debug, Drop)]
pub struct PlainSet {
    bits: u32,
    low: Flags,
    high: Flags,
}

impl Model for PlainSet {
    ghost use Rattle.std.specs.Coded.{codes};
    ghost use Rattle.spec_engine.specs.Signatures.{Signature, places_code};
    ghost use Rattle.dl_sig.specs.Banks.{AreBanks};

    ghost Value = { Signature };

    ghost coded = { Prim.hlevel (codes, places_code) };

    ghost view = { λ g. record { bits = g.bits; low = g.low.set; high = g.high.set } };

    ghost invariant = { λ g. AreBanks g.bits g.low g.high };
}

impl Sig for PlainSet {
    ghost marks = { λ g. g };

    fn empty(alloc: Global, bits: u32) -> Result<PlainSet, AllocError> {
        Ok(PlainSet {
            bits,
            low: Flags::new(alloc, bits / 2)?,
            high: Flags::new(alloc, bits / 2)?,
        })
    }

    fn insert(&mut self, line: u32) {
        self.low.set(place::low(self.bits, line));
        self.high.set(place::high(self.bits, line));
    }

    fn clear(&mut self) {
        self.low.clear();
        self.high.clear();
    }

    fn join(&mut self, other: &PlainSet) {
        self.low.join(&other.low);
        self.high.join(&other.high);
    }

    fn hits(&self, other: &PlainSet) -> bool {
        self.low.meets(&other.low) && self.high.meets(&other.high)
    }

    fn covers(&self, line: u32) -> bool {
        self.low.has(place::low(self.bits, line)) && self.high.has(place::high(self.bits, line))
    }
}
