//! The buffer itself. It has room for a number of words, which `new` makes; no other call takes memory.
ghost use Rattle.std.specs.Prelude.{◌≡◌, ℕ, ◌/◌, ◌%◌, ◌≤◌, ◌==◌, [], length, drop, IfOk, OnOk, OnErr, is_ok};
ghost use Rattle.std.specs.List.{slice_get, position};
ghost use Rattle.std.specs.VecDeque.Iter.{deque_iter_rest};
ghost use Rattle.spec_isa.specs.Words.{Apart};
ghost use Rattle.spec_isa.specs.Masks.{bytes_of, over};
ghost use Rattle.dl_wbuf.specs.Buffers.{has_room, after_store, byte_held, IsLast};
ghost use Rattle.dl_wbuf.specs.Invariant.{left};
ghost use Rattle.dl_wbuf.specs.Tables.{place};

use crate::index::Index;
use crate::stored::Stored;
use std::alloc::{AllocError, Global};
use std::collections::VecDeque;
use std::collections::vec_deque::Iter;
use std::marker::Model;
use thiserror::Error;

/// The buffer has no room for one more word.
#[derive(Clone, Copy, Debug, PartialEq, Eq, Error)]
#[error("the write buffer is full")]
pub struct Full;

/// The words stored, in the order of their first store.
#[derive(Debug, Drop)]
pub struct Buffer {
    capacity: u32,
    words: VecDeque<Stored>,
    // the place of each word, counted from the first that came since the table was last emptied
    table: Index,
    // how many have been taken out since
    drained: u32,
}

impl Model for Buffer {
    ghost use Rattle.std.specs.VecDeque.{deque_capacity};
    ghost use Rattle.dl_wbuf.specs.Buffers.{Words};
    ghost use Rattle.dl_wbuf.specs.Invariant.{IsBuffer, IsPlaced};

    ghost Value = { Words };

    ghost view = { λ b. record { capacity = b.capacity; words = b.words.items } };

    ghost invariant = { λ b. IsBuffer b.capacity (deque_capacity b.words) b.words.items × IsPlaced b.capacity b.drained b.table b.words.items };
}

impl Buffer {
    /// An empty buffer with room for `c` words, from 1 to 65,536.
    pub fn new(alloc: Global, c: u32) -> Result<Buffer, AllocError>
        requires least { 1 ≤ c }
        requires most { c ≤ 65536 }
        ensures { IfOk result (λ buffer. buffer ≡ record { capacity = c; words = [] }) }
    {
        Ok(Buffer {
            capacity: c,
            words: VecDeque::with_capacity(alloc, c as usize)?,
            table: Index::new(alloc, 2 * c)?,
            drained: 0,
        })
    }

    /// How many words there is room for, from 1 to 65,536.
    pub fn capacity(&self) -> u32
        ensures value { result ≡ self.now.capacity }
        ensures least { 1 ≤ result }
        ensures most { result ≤ 65536 }
    {
        self.capacity
    }

    /// How many words there are.
    pub fn len(&self) -> u32
        ensures value { result ≡ length self.now.words }
        ensures within { length self.now.words ≤ self.now.capacity }
        ensures most { self.now.capacity ≤ 65536 }
        ensures apart { Apart self.now.words }
    {
        self.words.len() as u32
    }

    /// Whether it is empty.
    pub fn is_empty(&self) -> bool
        ensures { result ≡ (length self.now.words == 0) }
    {
        self.words.is_empty()
    }

    /// Whether there is room for a store to the word of an address.
    pub fn has_room(&self, word: u32) -> bool
        ensures { result ≡ has_room self.now (word / 4) }
    {
        self.words.len() < self.capacity as usize || self.place(word / 4).is_some()
    }

    /// The byte last stored at an address.
    pub fn get(&self, byte: u32) -> Option<u8>
        ensures value { result ≡ byte_held self.now.words byte }
        ensures last { IsLast self.now.words byte result }
        ensures apart { Apart self.now.words }
    {
        let i = self.place(byte / 4)?;
        self.words[i].byte(byte % 4)
    }

    /// The word at an address as it is seen through the buffer; `below` is what lies below.
    #[inline(always)]
    pub fn over(&self, word: u32, below: u32) -> u32
        ensures value { result ≡ over self.now.words (word / 4) below }
        ensures apart { Apart self.now.words }
    {
        match self.place(word / 4) {
            Some(i) => self.words[i].over(below),
            None => below,
        }
    }

    /// The i-th word left, from 0, in the order of their first store.
    pub fn nth(&self, i: u32) -> Option<Stored>
        ensures value { result ≡ slice_get self.now.words i }
        ensures apart { Apart self.now.words }
    {
        self.words.get(i as usize).copied()
    }

    /// The words left, in the order of their first store.
    pub fn iter(&self) -> Iter<'_, Stored>
        ensures value { deque_iter_rest result ≡ self.now.words }
        ensures apart { Apart self.now.words }
    {
        self.words.iter()
    }

    /// Takes out the word that was stored first.
    pub fn drain_next(&mut self) -> Option<Stored>
        ensures value { result ≡ slice_get self.old.words 0 }
        ensures rest { self.new ≡ record self.old { words = drop 1 self.old.words } }
        ensures apart { Apart self.old.words }
    {
        let first = self.words.pop_front()?;
        self.drained += 1;
        if self.drained == self.capacity || self.words.is_empty() {
            fill(&mut self.table, &self.words);
            self.drained = 0;
        }
        Some(first)
    }

    /// Forgets every word.
    pub fn clear(&mut self)
        ensures { self.new ≡ record self.old { words = [] } }
    {
        self.words.clear();
        self.table.clear();
        self.drained = 0;
    }

    /// Stores the masked bytes of a value in a word. `Full`: the word is new and there is no room for one more; nothing
    /// is stored.
    #[inline(always)]
    pub fn put(&mut self, word: u32, mask: u8, value: u32) -> Result<(), Full>
        requires { word % 4 ≡ 0 }
        ensures taken { is_ok result ≡ has_room self.old (word / 4) }
        ensures ok { OnOk result (self.new ≡ after_store self.old (bytes_of (word / 4) mask value)) }
        ensures err { OnErr result (self.new ≡ self.old) }
        ensures apart { Apart self.old.words }
    {
        let slot = self.table.slot(word / 4);
        if let Some(i) = left(self.table.place_in(slot), self.drained) {
            let stored = self.words[i];
            self.words[i] = stored.then(mask, value);
            return Ok(());
        }
        if self.words.len() >= self.capacity as usize {
            return Err(Full);
        }
        let place = self.drained + self.words.len() as u32;
        self.table.set(slot, word / 4, place);
        self.words
            .push_back_reserved(Stored::none(word).then(mask, value));
        Ok(())
    }

    // The place of the word of that number.
    #[inline(always)]
    fn place(&self, number: u32) -> Option<usize>
        ensures value { result ≡ position (λ s. s.number == number) self.now.words }
        ensures apart { Apart self.now.words }
    {
        left(self.table.place(number), self.drained)
    }
}

// Which of the words left came at this place, if one of them did.
fn left(place: Option<u32>, drained: u32) -> Option<usize>
    ensures { result ≡ left drained place }
{
    let i = place?.checked_sub(drained)?;
    Some(i as usize)
}

// Empties the table, and gives it the place of each word.
fn fill(table: &mut Index, words: &VecDeque<Stored>)
    requires apart { Apart words.now.items }
    requires room { length words.now.items ≤ table.old.room }
    requires most { length words.now.items ≤ 65536 }
    ensures places { (a : ℕ) → place table.new a ≡ position (λ s. s.number == a) words.now.items }
    ensures taken { length table.new.taken ≤ length words.now.items }
    ensures room { table.new.room ≡ table.old.room }
{
    table.clear();
    for i in 0..words.len() {
        let number = words[i].number();
        let slot = table.slot(number);
        table.set(slot, number, i as u32);
    }
}
