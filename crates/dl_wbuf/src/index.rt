//! The table beside one word of bits, which says of most words that aren't there that they aren't, without a look at the table.
ghost use Rattle.std.specs.Prelude.{◌≡◌, ℕ, ◌+◌, ◌<◌, ◌≤◌, length, None, Some, if◌then◌else◌, nat_eq, IfOk};
ghost use Rattle.dl_wbuf.specs.Tables.{line_bit, slot_of, place_in, place};

use crate::table::Table;
use std::alloc::{AllocError, Global};
use std::marker::Model;

// Some numbers with a place for each, and a bit for each line that has one of them.
#[derive(Debug, Drop)]
pub(crate) struct Index {
    table: Table,
    lines: u64,
}

impl Model for Index {
    ghost use Rattle.dl_wbuf.specs.Tables.{Slots, IsSifted};

    ghost Value = { Slots };

    ghost view = { λ x. x.table };

    ghost invariant = { λ x. IsSifted x.lines x.table };
}

impl Index {
    // An empty table with room for `room` numbers, from 1 to 131,072.
    pub(crate) fn new(alloc: Global, room: u32) -> Result<Index, AllocError>
        requires least { 1 ≤ room }
        requires most { room ≤ 131072 }
        ensures places { IfOk result (λ t. (number : ℕ) → place t number ≡ None) }
        ensures taken { IfOk result (λ t. length t.taken ≡ 0) }
        ensures room { IfOk result (λ t. t.room ≡ room) }
    {
        Ok(Index {
            table: Table::new(alloc, room)?,
            lines: 0,
        })
    }

    // The place of a number, if it has one.
    #[inline(always)]
    pub(crate) fn place(&self, number: u32) -> Option<u32>
        ensures { result ≡ place self.now number }
    {
        if self.lines >> line_bit(number) & 1 == 0 {
            return None;
        }
        self.table.place(number)
    }

    // The slot of a number: the one that its entry takes, or would take.
    pub(crate) fn slot(&self, number: u32) -> usize
        ensures value { result ≡ slot_of self.now number }
        ensures within { result < length self.now.slots }
    {
        self.table.slot(number)
    }

    // The place that a slot's entry has.
    pub(crate) fn place_in(&self, slot: usize) -> Option<u32>
        requires { slot < length self.now.slots }
        ensures { result ≡ place_in self.now slot }
    {
        self.table.place_in(slot)
    }

    // From now on the number has this place. The slot is that of the number.
    pub(crate) fn set(&mut self, slot: usize, number: u32, at: u32)
        requires slot { slot ≡ slot_of self.old number }
        requires room { length self.old.taken < self.old.room }
        ensures places { (a : ℕ) → place self.new a ≡ (if nat_eq a number then Some at else place self.old a) }
        ensures taken { length self.new.taken ≤ length self.old.taken + 1 }
        ensures room { self.new.room ≡ self.old.room }
    {
        self.table.set(slot, number, at);
        self.lines |= 1 << line_bit(number);
    }

    // No number has a place any more.
    pub(crate) fn clear(&mut self)
        ensures places { (number : ℕ) → place self.new number ≡ None }
        ensures taken { length self.new.taken ≡ 0 }
        ensures room { self.new.room ≡ self.old.room }
    {
        self.table.clear();
        self.lines = 0;
    }
}

// The bit for the line of a word, which it shares with every 64th line.
fn line_bit(number: u32) -> u32
    ensures value { result ≡ line_bit number }
    ensures within { result < 64 }
{
    number / 8 % 64
}
