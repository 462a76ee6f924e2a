//! The values of one thread, by index.
ghost use Rattle.std.specs.Prelude.{◌≡◌, ℕ, ◌<◌, ◌≤◌, [], length, slice_index_or, IsOk, IsTrue, MatchResult, OnOk, OnErr};
ghost use Rattle.dl_moments.specs.Marks.{Rises, with_mark, with_mark_if, marks_from, value_at, Stands, Misses};

use dl_entry::OutOfMemory;
use std::alloc::Global;
use std::marker::Model;

/// A value at an index.
#[derive(Clone, Copy, Debug, PartialEq, Eq)]
pub struct Mark<V> {
    pub index: u32,
    pub value: V,
}

/// Values by rising indices, seen as the list of them, and whether there is room for one more.
#[derive(Debug, Drop)]
pub struct Lane<V> {
    marks: Vec<Mark<V>>,
}

impl<V> Model for Lane<V> {
    ghost use Rattle.std.specs.Prelude.{nat_lt, vec_len, vec_capacity};
    ghost use Rattle.dl_moments.specs.Views.{LaneState};
    ghost use Rattle.dl_moments.specs.Marks.{Rises};

    ghost Value = { LaneState V };

    ghost view = { λ lane. record { marks = lane.marks.items; room = nat_lt (vec_len lane.marks) (vec_capacity lane.marks) } };

    ghost invariant = { λ lane. Rises lane.marks.items };
}

impl<V: Copy> Lane<V> {
    /// No value; this takes no memory yet.
    pub fn new(alloc: Global) -> Self
        ensures { result.marks ≡ [] }
    {
        Lane {
            marks: Vec::new(alloc),
        }
    }

    /// Makes room for one more value.
    pub fn reserve(&mut self) -> Result<(), OutOfMemory>
        ensures marks { self.new.marks ≡ self.old.marks }
        ensures ok { OnOk result (IsTrue self.new.room) }
        ensures room { IsTrue self.old.room → IsOk result }
    {
        self.marks.reserve(1)?;
        Ok(())
    }

    /// Puts a value at an index, in place of any other that is there. If there is room, it isn't refused.
    pub fn put(&mut self, index: u32, value: V) -> Result<(), OutOfMemory>
        ensures ok { OnOk result (self.new.marks ≡ with_mark index value self.old.marks) }
        ensures err { OnErr result (self.new.marks ≡ self.old.marks) }
        ensures room { IsTrue self.old.room → IsOk result }
    {
        match place_of(&self.marks, index) {
            Ok(place) => self.marks[place] = Mark { index, value },
            Err(place) => self.marks.insert(place, Mark { index, value })?,
        }
        Ok(())
    }

    /// Puts a value in place of the one at an index, if there is one.
    pub fn set(&mut self, index: u32, value: V)
        ensures marks { self.new.marks ≡ with_mark_if index value self.old.marks }
        ensures count { length self.new.marks ≡ length self.old.marks }
        ensures room { self.new.room ≡ self.old.room }
    {
        if let Ok(place) = place_of(&self.marks, index) {
            self.marks[place] = Mark { index, value };
        }
    }

    /// Drops the values below an index.
    pub fn forget(&mut self, start: u32)
        ensures marks { self.new.marks ≡ marks_from start self.old.marks }
        ensures room { IsTrue self.old.room → IsTrue self.new.room }
    {
        let place = lowest(&self.marks, start);
        self.marks.drain(..place);
    }

    /// The value at an index.
    pub fn at(&self, index: u32) -> Option<V>
        ensures { result ≡ value_at index self.now.marks }
    {
        match place_of(&self.marks, index) {
            Ok(place) => Some(self.marks[place].value),
            Err(_) => None,
        }
    }

    /// The values by rising indices.
    pub fn marks(&self) -> &[Mark<V>]
        ensures marks { result.now ≡ self.now.marks }
        ensures rises { Rises self.now.marks }
    {
        &self.marks
    }
}

/// The place that an index is at, else the place where it is to be put.
fn place_of<V>(marks: &[Mark<V>], index: u32) -> Result<usize, usize>
    requires { Rises marks.now }
    ensures { MatchResult result (Stands index marks.now) (Misses index marks.now) }
{
    let place = lowest(marks, index);
    if place < marks.len() && marks[place].index == index {
        Ok(place)
    } else {
        Err(place)
    }
}

/// The place of the first index that isn't lower.
fn lowest<V>(marks: &[Mark<V>], index: u32) -> usize
    requires { Rises marks.now }
    ensures within { result ≤ length marks.now }
    ensures below { (k : ℕ) (d : Mark V) → k < result → (slice_index_or marks.now k d).index < index }
    ensures above { (k : ℕ) (d : Mark V) → result ≤ k → k < length marks.now → index ≤ (slice_index_or marks.now k d).index }
{
    marks.partition_point(|mark| mark.index < index)
}
