//! Strata: what a log says, with runs of commits in place of its order.
ghost use Rattle.std.specs.Prelude.{◌≡◌};
ghost use Rattle.spec_strata.specs.Strata.{AreStrata};

use crate::stratum::Stratum;
use dl_entry::{Input, Sequence};
use spec_log::{DmaRecord, Interrupt, ShortSize};
use std::marker::Model;

/// The parts of strata: how many threads they count, 1 to 63; how many threads the sphere may have, 15 or 63; the standard
/// chunk size `s`, in instructions; the runs of commits; and the sections of a log of version 2 in order-only.
#[derive(Debug, Drop)]
pub struct StrataParts {
    pub counted: u8,
    pub threads: u8,
    pub s: u32,
    pub strata: Sequence<Stratum>,
    pub sizes: Sequence<ShortSize>,
    pub interrupts: Sequence<Interrupt>,
    pub inputs: Sequence<Input>,
    pub dmas: Sequence<DmaRecord>,
}

/// Strata, seen as their parts, which are in the ranges and orders of strata.
#[derive(Debug, Drop)]
pub struct Strata {
    parts: StrataParts,
}

impl Model for Strata {
    ghost use Rattle.spec_strata.specs.declared.strata.StrataParts.{StrataParts};
    ghost use Rattle.spec_strata.specs.Strata.{AreStrata};

    ghost Value = { StrataParts };

    ghost view = { λ strata. strata.parts };

    ghost invariant = { λ strata. AreStrata strata.parts };
}

impl Strata {
    pub fn new(parts: StrataParts) -> Strata
        requires { AreStrata parts }
        ensures { result ≡ parts }
    {
        Strata { parts }
    }

    pub fn parts(&self) -> &StrataParts
        ensures parts { result.now ≡ self.now }
        ensures good { AreStrata self.now }
    {
        &self.parts
    }

    pub fn into_parts(self) -> StrataParts
        ensures parts { result ≡ self }
        ensures good { AreStrata self }
    {
        self.parts
    }
}
