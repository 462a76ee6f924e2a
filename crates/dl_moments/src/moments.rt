//! Values by thread and index.
ghost use Rattle.std.specs.Prelude.{◌≡◌, ◌<◌, List, [], length, replicate, slice_index, slice_set, slice_index_or, IfOk, IsOk};
ghost use Rattle.std.specs.Prelude.{IsTrue, OnOk, OnErr};
ghost use Rattle.dl_entry.specs.Numbers.{most_threads};
ghost use Rattle.dl_moments.specs.Views.{By};
ghost use Rattle.dl_moments.specs.Marks.{Rises, with_mark, with_mark_if, lanes_from, value_at};

use crate::lane::{Lane, Mark};
use dl_entry::{MOST_THREADS, OutOfMemory};
use std::alloc::Global;
use std::marker::Model;
use std::mem;

/// How many threads there may be.
pub const THREADS: usize = MOST_THREADS as usize;

/// Values of all threads that there may be, each thread's by rising indices, and whether there is room for one more of any thread.
/// From thread `used` on none has a value. The first value of such a thread is put into the spare lane, which then becomes the
/// thread's: so making room goes through no lane that was never used.
#[derive(Debug, Drop)]
pub struct Moments<V> {
    lanes: Vec<Lane<V>>,
    used: usize,
    spare: Lane<V>,
}

impl<V> Model for Moments<V> {
    ghost use Rattle.dl_entry.specs.Numbers.{most_threads};
    ghost use Rattle.std.specs.Prelude.{◌≡◌, ◌≤◌, ◌&&◌, [], length, map, take};
    ghost use Rattle.std.specs.List.{list_all};
    ghost use Rattle.dl_moments.specs.Views.{By, HaveNone};

    ghost Value = { By V };

    ghost view = { λ m. record {
      lanes = map (λ lane. lane.marks) m.lanes.items;
      room = list_all (λ lane. lane.room) (take m.used m.lanes.items) && m.spare.room;
    } };

    ghost invariant = { λ m. (length m.lanes.items ≡ most_threads) × (m.used ≤ most_threads)
        × HaveNone m.used (map (λ lane. lane.marks) m.lanes.items) × (m.spare.marks ≡ []) };
}

impl<V: Copy> Moments<V> {
    /// No value of any thread.
    pub fn new(alloc: Global) -> Result<Self, OutOfMemory>
        ensures { IfOk result (λ moments. moments.lanes ≡ replicate most_threads []) }
    {
        let mut lanes = Vec::new(alloc);
        for _ in 0..THREADS {
            lanes.push(Lane::new(alloc))?;
        }
        Ok(Moments {
            lanes,
            used: 0,
            spare: Lane::new(alloc),
        })
    }

    /// Makes room for one more value.
    pub fn reserve(&mut self) -> Result<(), OutOfMemory>
        ensures lanes { self.new.lanes ≡ self.old.lanes }
        ensures ok { OnOk result (IsTrue self.new.room) }
        ensures room { IsTrue self.old.room → IsOk result }
    {
        for thread in 0..self.used {
            let lane = &mut self.lanes[thread];
            lane.reserve()?;
        }
        self.spare.reserve()
    }

    /// Puts a thread's value at an index, in place of any other that is there. If there is room, it isn't refused.
    pub fn put(&mut self, thread: u8, index: u32, value: V) -> Result<(), OutOfMemory>
        requires { thread < most_threads }
        ensures ok { let lane = slice_index_or self.old.lanes thread [] in
            OnOk result (self.new.lanes ≡ slice_set self.old.lanes thread (with_mark index value lane)) }
        ensures err { OnErr result (self.new.lanes ≡ self.old.lanes) }
        ensures room { IsTrue self.old.room → IsOk result }
    {
        let place = usize::from(thread);
        if place < self.used {
            let lane = &mut self.lanes[place];
            return lane.put(index, value);
        }
        self.spare.put(index, value)?;
        mem::swap(&mut self.lanes[place], &mut self.spare);
        self.used = place + 1;
        Ok(())
    }

    /// Puts a value in place of the thread's value at an index, if there is one.
    pub fn set(&mut self, thread: u8, index: u32, value: V)
        ensures lanes { let lane = slice_index_or self.old.lanes thread [] in
            self.new.lanes ≡ slice_set self.old.lanes thread (with_mark_if index value lane) }
        ensures count { length (slice_index_or self.new.lanes thread []) ≡ length (slice_index_or self.old.lanes thread []) }
        ensures room { self.new.room ≡ self.old.room }
    {
        let place = usize::from(thread);
        if place < self.used {
            let lane = &mut self.lanes[place];
            lane.set(index, value);
        }
    }

    /// Drops each thread's values below its start, by the number of the thread; a thread without a start keeps all.
    pub fn forget(&mut self, starts: &[u32])
        ensures lanes { self.new.lanes ≡ lanes_from starts.now 0 self.old.lanes }
        ensures room { IsTrue self.old.room → IsTrue self.new.room }
    {
        for thread in 0..THREADS {
            let lane = &mut self.lanes[thread];
            lane.forget(start_of(starts, thread));
        }
    }

    /// A thread's value at an index.
    pub fn at(&self, thread: u8, index: u32) -> Option<V>
        ensures { result ≡ value_at index (slice_index_or self.now.lanes thread []) }
    {
        self.lanes.get(usize::from(thread))?.at(index)
    }

    /// A thread's values by rising indices.
    pub fn lane(&self, thread: u8) -> &[Mark<V>]
        ensures marks { result.now ≡ slice_index_or self.now.lanes thread [] }
        ensures threads { length self.now.lanes ≡ most_threads }
        ensures rises { Rises result.now }
    {
        match self.lanes.get(usize::from(thread)) {
            Some(lane) => lane.marks(),
            None => &[],
        }
    }
}

/// The start of a thread, 0 if it has none.
fn start_of(starts: &[u32], thread: usize) -> u32
    ensures { result ≡ slice_index starts.now thread }
{
    match starts.get(thread) {
        Some(start) => *start,
        None => 0,
    }
}
