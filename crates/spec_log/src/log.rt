//! A log.
ghost use Rattle.std.specs.Prelude.{◌≡◌};
ghost use Rattle.spec_log.specs.Log.{IsLog};

use crate::mode_name::ModeName;
use crate::records::{DmaRecord, Interrupt, Order};
use crate::sizes::Sizes;
use dl_entry::{Input, Sequence};
use std::marker::Model;

/// The parts of a log: its version, 1 or 2; how many threads it may have, 15, or in version 2 also 63; the standard chunk
/// size `s`, in instructions; the number of commits; and the five sections.
#[derive(Debug, Drop)]
pub struct LogParts {
    pub version: u8,
    pub threads: u8,
    pub mode: ModeName,
    pub s: u32,
    pub count: u32,
    pub order: Order,
    pub sizes: Sizes,
    pub interrupts: Sequence<Interrupt>,
    pub inputs: Sequence<Input>,
    pub dmas: Sequence<DmaRecord>,
}

/// A log, seen as its parts, which are in a log's ranges and orders.
#[derive(Debug, Drop)]
pub struct Log {
    parts: LogParts,
}

impl Model for Log {
    ghost use Rattle.spec_log.specs.declared.log.LogParts.{LogParts};
    ghost use Rattle.spec_log.specs.Log.{IsLog};

    ghost Value = { LogParts };

    ghost view = { λ log. log.parts };

    ghost invariant = { λ log. IsLog log.parts };
}

impl Log {
    pub fn new(parts: LogParts) -> Log
        requires { IsLog parts }
        ensures { result ≡ parts }
    {
        Log { parts }
    }

    pub fn parts(&self) -> &LogParts
        ensures parts { result.now ≡ self.now }
        ensures good { IsLog self.now }
    {
        &self.parts
    }

    pub fn into_parts(self) -> LogParts
        ensures parts { result ≡ self }
        ensures good { IsLog self }
    {
        self.parts
    }
}
