//! A tail.
ghost use Rattle.std.specs.Prelude.{◌≡◌};
ghost use Rattle.spec_tail.specs.Tails.{IsTail};
ghost use Rattle.dl_tail.specs.Values.{value_of};

use dl_entry::{Bytes, Request, Sequence};
use dl_logfmt::Log;
use spec_isa::thread::Parts;
use std::marker::Model;

/// The parts of a tail: the base, which is the number of commits before it; the threads, the memory, the outstanding DMA
/// request and the thread that committed last, as they were there; and a log of version 2 of the commits from there on.
#[derive(Debug, Drop)]
pub struct TailParts {
    pub base: u32,
    pub threads: Sequence<Parts>,
    pub memory: Bytes,
    pub request: Option<Request>,
    pub last: Option<u8>,
    pub log: Log,
}

/// A tail, seen as its parts, which are in a tail's ranges.
#[derive(Debug, Drop)]
pub struct Tail {
    parts: TailParts,
}

impl Model for Tail {
    ghost use Rattle.spec_tail.specs.Tails.{Tail as TailValue, IsTail};
    ghost use Rattle.dl_tail.specs.Values.{value_of};

    ghost Value = { TailValue };

    ghost view = { λ tail. value_of tail.parts };

    ghost invariant = { λ tail. IsTail (value_of tail.parts) };
}

impl Tail {
    pub fn new(parts: TailParts) -> Tail
        requires { IsTail (value_of parts) }
        ensures { result ≡ value_of parts }
    {
        Tail { parts }
    }

    pub fn parts(&self) -> &TailParts
        ensures parts { value_of result.now ≡ self.now }
        ensures good { IsTail self.now }
    {
        &self.parts
    }

    pub fn into_parts(self) -> TailParts
        ensures parts { value_of result ≡ self }
        ensures good { IsTail self }
    {
        self.parts
    }
}
