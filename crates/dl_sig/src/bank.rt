//! One bank as words of 32 bits.
ghost use Rattle.std.specs.Prelude.{◌≡◌, ◌≤◌, ◌<◌, ◌*◌, ◌%◌, ◌/◌, length, IfOk};
ghost use Rattle.std.specs.FinSet as set;
ghost use Rattle.spec_engine.specs.Signatures.{meets};

use crate::words;
use std::alloc::{AllocError, Global};
use std::marker::Model;

// The places that are set, one bit for each.
#[derive(Debug, Drop)]
pub(crate) struct Bank {
    words: Vec<u32>,
}

impl Model for Bank {
    ghost use Rattle.std.specs.Coded.{codes};
    ghost use Rattle.spec_engine.specs.Signatures.{places_code};
    ghost use Rattle.dl_sig.specs.Banks.{Places, of_words};

    ghost Value = { Places };

    ghost coded = { Prim.hlevel (codes, places_code) };

    ghost view = { λ b. of_words b.words.items };
}

impl Bank {
    ghost use Rattle.dl_sig.specs.Banks.{no_place, with_place, with_places};

    // A bank of `size` places, a multiple of 32, none of which is set.
    pub(crate) fn new(alloc: Global, size: u32) -> Result<Bank, AllocError>
        requires { size % 32 ≡ 0 }
        ensures { IfOk result (λ b. b ≡ no_place size) }
    {
        Ok(Bank {
            words: vec![in alloc; 0; size as usize / 32]?,
        })
    }

    pub(crate) fn set(&mut self, place: u32)
        requires { place < self.old.size }
        ensures { self.new ≡ with_place place self.old }
    {
        self.words[place as usize / 32] |= 1 << (place % 32);
    }

    pub(crate) fn clear(&mut self)
        ensures { self.new ≡ no_place self.old.size }
    {
        self.words.fill(0);
    }

    pub(crate) fn has(&self, place: u32) -> bool
        requires { place < self.now.size }
        ensures { result ≡ set.contains self.now.set place }
    {
        self.words[place as usize / 32] >> (place % 32) & 1 == 1
    }

    // Whether both have some place set.
    pub(crate) fn meets(&self, other: &Bank) -> bool
        requires { other.now.size ≡ self.now.size }
        ensures { result ≡ meets self.now.set other.now.set }
    {
        words::share(&self.words, &other.words)
    }

    // Sets the other's places too.
    pub(crate) fn join(&mut self, other: &Bank)
        requires { other.now.size ≡ self.old.size }
        ensures { self.new ≡ with_places other.now self.old }
    {
        words::join(&mut self.words, &other.words);
    }
}
