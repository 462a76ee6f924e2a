//! The data of DMAs by their positions.
ghost use Rattle.std.specs.Prelude.{◌≡◌, ℕ, ◌-◌, ◌<◌, ◌≤◌, false, [], ◌∷◌, ◌++◌, None, Some, length, slice_index_or, IfOk, IsOk};
ghost use Rattle.std.specs.Prelude.{IsTrue, MatchOption};
ghost use Rattle.std.specs.Prelude.{OnOk, OnErr, drop};
ghost use Rattle.dl_entry.specs.Numbers.{most_bytes};
ghost use Rattle.std.specs.List.{list_all};
ghost use Rattle.std.specs.Slice.{IsItemAt};
ghost use Rattle.spec_log.specs.declared.records.DmaRecord.{DmaRecord as Record};
ghost use Rattle.dl_input.specs.Dmas.{Rises, bytes_at, taken_at, dmas_from, Stands, Misses};

use crate::copied::copied;
use dl_entry::{Bytes, MOST_BYTES, OutOfMemory, Sequence};
use spec_log::DmaRecord;
use std::alloc::Global;
use std::marker::Model;

/// The data of DMAs by their positions, which are the indices of their commits.
#[derive(Debug, Drop)]
pub struct Dmas {
    alloc: Global,
    entries: Vec<DmaRecord>,
    taken: Vec<bool>,
    spare: Vec<u8>,
}

impl Model for Dmas {
    ghost use Rattle.dl_entry.specs.Numbers.{most_bytes};
    ghost use Rattle.std.specs.Prelude.{◌≡◌, nat_lt, nat_le, ◌&&◌, [], length, vec_len, vec_capacity};
    ghost use Rattle.dl_input.specs.Dmas.{DmaList, Rises};

    ghost Value = { DmaList };

    ghost view = { λ d. record {
      dmas = d.entries.items;
      taken = d.taken.items;
      room = nat_lt (vec_len d.entries) (vec_capacity d.entries) && nat_lt (vec_len d.taken) (vec_capacity d.taken)
          && nat_le most_bytes (vec_capacity d.spare);
    } };

    ghost invariant = { λ d. (length d.taken.items ≡ length d.entries.items) × Rises d.entries.items × (d.spare.items ≡ []) };
}

impl Dmas {
    /// No DMA; this takes no memory yet.
    pub fn new(alloc: Global) -> Dmas
        ensures dmas { result.dmas ≡ [] }
        ensures taken { result.taken ≡ [] }
    {
        Dmas {
            alloc,
            entries: Vec::new(alloc),
            taken: Vec::new(alloc),
            spare: Vec::new(alloc),
        }
    }

    /// Makes room for one more DMA.
    pub fn reserve(&mut self) -> Result<(), OutOfMemory>
        ensures dmas { self.new.dmas ≡ self.old.dmas }
        ensures taken { self.new.taken ≡ self.old.taken }
        ensures ok { OnOk result (IsTrue self.new.room) }
        ensures room { IsTrue self.old.room → IsOk result }
    {
        self.entries.reserve(1)?;
        self.taken.reserve(1)?;
        self.spare.reserve(MOST_BYTES)?;
        Ok(())
    }

    /// Adds the data of a DMA with a greater position at the end. If there is room, it isn't refused.
    pub fn note(&mut self, position: u32, bytes: &[u8]) -> Result<(), OutOfMemory>
        requires few { length bytes.now ≤ most_bytes }
        requires greater { (d : Record) → 0 < length self.old.dmas → (slice_index_or self.old.dmas (length self.old.dmas - 1) d).position < position }
        ensures ok { OnOk result (self.new.dmas ≡ self.old.dmas ++ record { position = position; bytes = bytes.now } ∷ []) }
        ensures taken { OnOk result (self.new.taken ≡ self.old.taken ++ false ∷ []) }
        ensures err { OnErr result (self.new.dmas ≡ self.old.dmas) }
        ensures taken_kept { OnErr result (self.new.taken ≡ self.old.taken) }
        ensures room { IsTrue self.old.room → IsOk result }
    {
        self.entries.reserve(1)?;
        self.taken.reserve(1)?;
        let bytes = copied(self.alloc, bytes, &mut self.spare)?;
        self.entries.push_reserved(DmaRecord { position, bytes });
        self.taken.push_reserved(false);
        Ok(())
    }

    /// The bytes of the DMA at a position, taken or not.
    pub fn at(&self, position: u32) -> Option<&[u8]>
        ensures { MatchOption result (bytes_at position self.now.dmas ≡ None) (λ bytes. bytes_at position self.now.dmas ≡ Some bytes.now) }
    {
        let place = place_of(&self.entries, position)?;
        Some(self.entries[place].bytes.as_slice())
    }

    /// The i-th DMA by position, from 0, taken or not.
    pub fn nth(&self, i: u32) -> Option<&DmaRecord>
        ensures { IsItemAt self.now.dmas i result }
    {
        self.entries.get(i as usize)
    }

    /// Takes the DMA at a position, if there is one.
    pub fn take(&mut self, position: u32)
        ensures dmas { self.new.dmas ≡ self.old.dmas }
        ensures taken { self.new.taken ≡ taken_at position self.old.dmas self.old.taken }
        ensures room { self.new.room ≡ self.old.room }
    {
        if let Some(place) = place_of(&self.entries, position) {
            self.taken[place] = true;
        }
    }

    /// Drops those at positions below this one, taken or not.
    pub fn forget(&mut self, position: u32)
        ensures dmas { self.new.dmas ≡ dmas_from position self.old.dmas }
        ensures taken { self.new.taken ≡ drop (length self.old.dmas - length self.new.dmas) self.old.taken }
        ensures room { IsTrue self.old.room → IsTrue self.new.room }
    {
        let place = lowest(&self.entries, position);
        self.entries.drain(..place);
        self.taken.drain(..place);
    }

    /// A copy of all.
    pub fn list(&self, alloc: Global) -> Result<Sequence<DmaRecord>, OutOfMemory>
        ensures { IfOk result (λ list. list ≡ self.now.dmas) }
    {
        let mut list = Sequence::new(alloc);
        for dma in &self.entries {
            list.push(DmaRecord {
                position: dma.position,
                bytes: Bytes::from_slice(alloc, dma.bytes.as_slice())?,
            })?;
        }
        Ok(list)
    }

    /// Whether all are taken.
    pub fn used(&self) -> bool
        ensures { result ≡ list_all (λ t. t) self.now.taken }
    {
        for taken in &self.taken {
            if !*taken {
                return false;
            }
        }
        true
    }
}

/// The place that a position is at.
fn place_of(dmas: &[DmaRecord], position: u32) -> Option<usize>
    requires { Rises dmas.now }
    ensures { MatchOption result (Misses position dmas.now) (Stands position dmas.now) }
{
    let place = lowest(dmas, position);
    if place < dmas.len() && dmas[place].position == position {
        Some(place)
    } else {
        None
    }
}

/// The place of the first position that isn't lower.
fn lowest(dmas: &[DmaRecord], position: u32) -> usize
    requires { Rises dmas.now }
    ensures within { result ≤ length dmas.now }
    ensures below { (k : ℕ) (d : Record) → k < result → (slice_index_or dmas.now k d).position < position }
    ensures above { (k : ℕ) (d : Record) → result ≤ k → k < length dmas.now → position ≤ (slice_index_or dmas.now k d).position }
{
    dmas.partition_point(|dma| dma.position < position)
}
