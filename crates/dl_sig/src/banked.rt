//! Signatures as words of bits.
ghost use Rattle.std.specs.Prelude.{◌≡◌};

use crate::bank::Bank;
use crate::place;
use crate::sig::Sig;
use std::alloc::{AllocError, Global};
use std::marker::Model;

/// A signature whose banks are words of bits.
#[derive(Debug, Drop)]
pub struct Banked {
    bits: u32,
    low: Bank,
    high: Bank,
}

impl Model for Banked {
    ghost use Rattle.std.specs.Coded.{codes};
    ghost use Rattle.spec_engine.specs.Signatures.{Signature, places_code};
    ghost use Rattle.dl_sig.specs.Banks.{AreBanks};

    ghost Value = { Signature };

    ghost coded = { Prim.hlevel (codes, places_code) };

    ghost view = { λ g. record { bits = g.bits; low = g.low.set; high = g.high.set } };

    ghost invariant = { λ g. AreBanks g.bits g.low g.high };
}

impl Sig for Banked {
    ghost marks = { λ g. g };

    fn empty(alloc: Global, bits: u32) -> Result<Banked, AllocError> {
        Ok(Banked {
            bits,
            low: Bank::new(alloc, bits / 2)?,
            high: Bank::new(alloc, bits / 2)?,
        })
    }

    fn insert(&mut self, line: u32) {
        self.low.set(place::low(self.bits, line));
        self.high.set(place::high(self.bits, line));
    }

    fn clear(&mut self) {
        self.low.clear();
        self.high.clear();
    }

    fn join(&mut self, other: &Banked) {
        self.low.join(&other.low);
        self.high.join(&other.high);
    }

    fn hits(&self, other: &Banked) -> bool {
        self.low.meets(&other.low) && self.high.meets(&other.high)
    }

    fn covers(&self, line: u32) -> bool {
        self.low.has(place::low(self.bits, line)) && self.high.has(place::high(self.bits, line))
    }
}
