//! Inputs in the order of commits.
ghost use Rattle.std.specs.Prelude.{◌≡◌, ◌-◌, ◌^◌, ◌==◌, ◌<◌, ◌≤◌, [], ◌∷◌, ◌++◌, length, drop, IfOk, IsOk, IsTrue, OnOk, OnErr};
ghost use Rattle.dl_entry.specs.Numbers.{most_bytes};
ghost use Rattle.std.specs.Slice.{IsItemAt};
ghost use Rattle.dl_input.specs.Inputs.{one_taken};

use crate::copied::copied;
use dl_entry::{Bytes, Input, MOST_BYTES, OutOfMemory, Sequence};
use std::alloc::Global;
use std::marker::Model;

/// Inputs in the order of commits, and how many of them have been taken.
#[derive(Debug, Drop)]
pub struct Inputs {
    alloc: Global,
    entries: Vec<Input>,
    taken: usize,
    spare: Vec<u8>,
}

impl Model for Inputs {
    ghost use Rattle.dl_entry.specs.Numbers.{most_bytes};
    ghost use Rattle.std.specs.Prelude.{◌≡◌, ◌≤◌, nat_lt, nat_le, ◌&&◌, [], length, vec_len, vec_capacity};
    ghost use Rattle.dl_input.specs.Inputs.{InputList};

    ghost Value = { InputList };

    ghost view = { λ i. record {
      inputs = i.entries.items;
      taken = i.taken;
      room = nat_lt (vec_len i.entries) (vec_capacity i.entries) && nat_le most_bytes (vec_capacity i.spare);
    } };

    ghost invariant = { λ i. (i.taken ≤ length i.entries.items) × (i.spare.items ≡ []) };
}

impl Inputs {
    /// No input; this takes no memory yet.
    pub fn new(alloc: Global) -> Inputs
        ensures inputs { result.inputs ≡ [] }
        ensures taken { result.taken ≡ 0 }
    {
        Inputs {
            alloc,
            entries: Vec::new(alloc),
            taken: 0,
            spare: Vec::new(alloc),
        }
    }

    /// Makes room for one more input.
    pub fn reserve(&mut self) -> Result<(), OutOfMemory>
        ensures inputs { self.new.inputs ≡ self.old.inputs }
        ensures taken { self.new.taken ≡ self.old.taken }
        ensures ok { OnOk result (IsTrue self.new.room) }
        ensures room { IsTrue self.old.room → IsOk result }
    {
        self.entries.reserve(1)?;
        self.spare.reserve(MOST_BYTES)?;
        Ok(())
    }

    /// Adds an input at the end. If there is room, it isn't refused.
    pub fn note(&mut self, input: &Input) -> Result<(), OutOfMemory>
        requires { length input.now.bytes ≤ most_bytes }
        ensures ok { OnOk result (self.new.inputs ≡ self.old.inputs ++ input.now ∷ []) }
        ensures err { OnErr result (self.new.inputs ≡ self.old.inputs) }
        ensures taken { self.new.taken ≡ self.old.taken }
        ensures room { IsTrue self.old.room → IsOk result }
    {
        self.entries.reserve(1)?;
        let bytes = copied(self.alloc, input.bytes.as_slice(), &mut self.spare)?;
        self.entries.push_reserved(Input {
            kind: input.kind,
            result: input.result,
            bytes,
        });
        Ok(())
    }

    /// The first input that isn't taken.
    pub fn next(&self) -> Option<&Input>
        ensures { IsItemAt self.now.inputs self.now.taken result }
    {
        self.entries.get(self.taken)
    }

    /// Takes the first input that isn't taken, if there is one.
    pub fn take(&mut self)
        ensures inputs { self.new.inputs ≡ self.old.inputs }
        ensures taken { self.new.taken ≡ one_taken self.old }
        ensures room { self.new.room ≡ self.old.room }
    {
        if self.taken < self.entries.len() {
            self.taken += 1;
        }
    }

    /// Drops the first `n` inputs, taken or not, or all if there are fewer.
    pub fn forget(&mut self, n: u32)
        ensures inputs { self.new.inputs ≡ drop n self.old.inputs }
        ensures taken { self.new.taken ≡ self.old.taken - n }
        ensures room { IsTrue self.old.room → IsTrue self.new.room }
    {
        let n = (n as usize).min(self.entries.len());
        self.entries.drain(..n);
        self.taken = self.taken.saturating_sub(n);
    }

    /// Whether all are taken.
    pub fn used(&self) -> bool
        ensures { result ≡ (self.now.taken == length self.now.inputs) }
    {
        self.taken == self.entries.len()
    }

    /// How many there are, taken or not.
    pub fn len(&self) -> u32
        requires { length self.now.inputs < 2 ^ 32 }
        ensures { result ≡ length self.now.inputs }
    {
        self.entries.len() as u32
    }

    /// The i-th input, from 0, taken or not.
    pub fn nth(&self, i: u32) -> Option<&Input>
        ensures { IsItemAt self.now.inputs i result }
    {
        self.entries.get(i as usize)
    }

    /// A copy of all.
    pub fn list(&self, alloc: Global) -> Result<Sequence<Input>, OutOfMemory>
        ensures { IfOk result (λ list. list ≡ self.now.inputs) }
    {
        let mut list = Sequence::new(alloc);
        for input in &self.entries {
            list.push(Input {
                kind: input.kind,
                result: input.result,
                bytes: Bytes::from_slice(alloc, input.bytes.as_slice())?,
            })?;
        }
        Ok(list)
    }
}
