//! A list of entries, which grows at its end.
ghost use Rattle.std.specs.Prelude.{◌≡◌, [], ◌∷◌, ◌++◌, ◌↔◌, ◌-◌, length, take, IsTrue, OnOk, OnErr, IfOk};
ghost use Rattle.std.specs.Slice.{IsItemAt};
ghost use Rattle.std.specs.Slice.Iter.{iter_rest};

use crate::out_of_memory::OutOfMemory;
use std::alloc::Global;
use std::marker::Model;
use std::slice;

/// Bytes in their order.
pub type Bytes = Sequence<u8>;

/// Entries in their order, seen as the list of them.
#[derive(Debug, Drop)]
pub struct Sequence<T> {
    entries: Vec<T>,
}

impl<T> Model for Sequence<T> {
    ghost use Rattle.std.specs.Prelude.{List};

    ghost Value = { List T };

    ghost view = { λ s. s.entries.items };
}

impl<T> Sequence<T> {
    /// A sequence with no entry, which takes no memory yet.
    pub fn new(alloc: Global) -> Self
        ensures { result ≡ [] }
    {
        Sequence {
            entries: Vec::new(alloc),
        }
    }

    /// The sequence of a vector's entries.
    pub fn from_vec(entries: Vec<T>) -> Self
        ensures { result ≡ entries.items }
    {
        Sequence { entries }
    }

    pub fn len(&self) -> usize
        ensures { result ≡ length self.now }
    {
        self.entries.len()
    }

    pub fn is_empty(&self) -> bool
        ensures { IsTrue result ↔ (self.now ≡ []) }
    {
        self.entries.is_empty()
    }

    pub fn get(&self, index: usize) -> Option<&T>
        ensures { IsItemAt self.now index result }
    {
        self.entries.get(index)
    }

    pub fn as_slice(&self) -> &[T]
        ensures { result.now ≡ self.now }
    {
        self.entries.as_slice()
    }

    pub fn iter(&self) -> slice::Iter<'_, T>
        ensures { iter_rest result ≡ self.now }
    {
        self.entries.iter()
    }
}

impl<T: Drop> Sequence<T> {
    /// Adds an entry at the end; where no memory is left for it, it is dropped.
    pub fn push(&mut self, entry: T) -> Result<(), OutOfMemory>
        ensures ok { OnOk result (self.new ≡ self.old ++ entry ∷ []) }
        ensures err { OnErr result (self.new ≡ self.old) }
    {
        self.entries.push(entry)?;
        Ok(())
    }

    /// Takes the last entry away, if there is one.
    pub fn drop_last(&mut self)
        ensures { self.new ≡ take (length self.old - 1) self.old }
    {
        let _ = self.entries.pop();
    }
}

impl<T: Copy> Sequence<T> {
    /// A sequence of the slice's entries.
    pub fn from_slice(alloc: Global, entries: &[T]) -> Result<Self, OutOfMemory>
        ensures { IfOk result (λ copy. copy ≡ entries.now) }
    {
        Ok(Sequence {
            entries: Vec::from_slice(alloc, entries)?,
        })
    }
}
