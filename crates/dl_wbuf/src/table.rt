//! The table that says where a word is. It is made once, and no later call takes memory.
ghost use Rattle.std.specs.Prelude.{◌≡◌, ℕ, ◌*◌, ◌+◌, ◌<◌, ◌≤◌, length, None, Some, if◌then◌else◌, nat_eq, IfOk};
ghost use Rattle.dl_wbuf.specs.Tables.{home, slot_of, place_in, place};

use crate::entry::{Entry, first_fit};
use std::alloc::{AllocError, Global};
use std::marker::Model;

// Some numbers, and a place for each.
#[derive(Debug, Drop)]
pub(crate) struct Table {
    slots: Vec<Option<Entry>>,
    taken: Vec<u32>,
    shift: u32,
}

impl Model for Table {
    ghost use Rattle.std.specs.Vec.{vec_capacity};
    ghost use Rattle.dl_wbuf.specs.Tables.{Slots, IsOpen};

    ghost Value = { Slots };

    ghost view = { λ t. record { slots = t.slots.items; taken = t.taken.items; room = vec_capacity t.taken; shift = t.shift } };

    ghost invariant = { λ t. IsOpen (record { slots = t.slots.items; taken = t.taken.items; room = vec_capacity t.taken; shift = t.shift }) };
}

impl Table {
    // An empty table with room for `room` numbers, from 1 to 131,072. It has a power of two of slots, at least twice as many.
    pub(crate) fn new(alloc: Global, room: u32) -> Result<Table, AllocError>
        requires least { 1 ≤ room }
        requires most { room ≤ 131072 }
        ensures places { IfOk result (λ t. (number : ℕ) → place t number ≡ None) }
        ensures taken { IfOk result (λ t. length t.taken ≡ 0) }
        ensures room { IfOk result (λ t. t.room ≡ room) }
    {
        let bits = (2 * room).ilog2();
        Ok(Table {
            slots: vec![in alloc; None; 2 << bits]?,
            taken: Vec::with_capacity(alloc, room as usize)?,
            shift: 32 - bits,
        })
    }

    // The place of a number, if it has one.
    pub(crate) fn place(&self, number: u32) -> Option<u32>
        ensures { result ≡ place self.now number }
    {
        self.place_in(self.slot(number))
    }

    // The slot of a number: the one that its entry takes, or would take.
    pub(crate) fn slot(&self, number: u32) -> usize
        ensures value { result ≡ slot_of self.now number }
        ensures within { result < length self.now.slots }
    {
        let home = self.home(number);
        let rest = &self.slots[home..];
        home + first_fit(rest, number).unwrap_or(rest.len())
    }

    // The place that a slot's entry has.
    pub(crate) fn place_in(&self, slot: usize) -> Option<u32>
        requires { slot < length self.now.slots }
        ensures { result ≡ place_in self.now slot }
    {
        let entry = self.slots[slot]?;
        Some(entry.place)
    }

    // From now on the number has this place. The slot is that of the number.
    pub(crate) fn set(&mut self, slot: usize, number: u32, at: u32)
        requires slot { slot ≡ slot_of self.old number }
        requires room { length self.old.taken < self.old.room }
        ensures places { (a : ℕ) → place self.new a ≡ (if nat_eq a number then Some at else place self.old a) }
        ensures taken { length self.new.taken ≤ length self.old.taken + 1 }
        ensures room { self.new.room ≡ self.old.room }
    {
        let is_free = self.slots[slot].is_none();
        self.slots[slot] = Some(Entry { number, place: at });
        if is_free {
            self.taken.push_reserved(slot as u32);
        }
    }

    // No number has a place any more.
    pub(crate) fn clear(&mut self)
        ensures places { (number : ℕ) → place self.new number ≡ None }
        ensures taken { length self.new.taken ≡ 0 }
        ensures room { self.new.room ≡ self.old.room }
    {
        while let Some(slot) = self.taken.pop() {
            self.slots[slot as usize] = None;
        }
    }

    // The slot at which the probe for a number begins.
    fn home(&self, number: u32) -> usize
        ensures value { result ≡ home self.now.shift number }
        ensures half { 2 * result < length self.now.slots }
    {
        (number.wrapping_mul(2_654_435_769) >> self.shift) as usize
    }
}
