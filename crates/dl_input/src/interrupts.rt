//! Interrupts by thread and index.
ghost use Rattle.std.specs.Prelude.{◌≡◌, ◌+◌, ◌^◌, ◌<◌, ◌++◌, [], None, length, map, option_map, slice_get, IfOk, IsOk, IsTrue, OnOk};
ghost use Rattle.std.specs.Prelude.{OnErr};
ghost use Rattle.dl_entry.specs.Numbers.{most_threads};
ghost use Rattle.std.specs.List.{list_all};
ghost use Rattle.dl_input.specs.Tracked.{tracked_of, new_tracked, raised_at, insert_tracked, interrupt_of, taken_at};
ghost use Rattle.dl_input.specs.Tracked.{tracked_since};

use dl_entry::{MOST_THREADS, OutOfMemory, Sequence};
use dl_moments::{Mark, Moments};
use spec_log::Interrupt;
use std::alloc::Global;
use std::marker::Model;

/// What was raised, and whether it was taken.
#[derive(Clone, Copy, Debug, PartialEq, Eq)]
pub struct Raised {
    pub value: u32,
    pub taken: bool,
}

/// Interrupts by thread, and for one thread by the number of its commits before. All that were noted are counted in 32 bits:
/// beyond that there is no room.
#[derive(Debug, Drop)]
pub struct Interrupts {
    moments: Moments<Raised>,
    count: u32,
}

impl Model for Interrupts {
    ghost use Rattle.dl_entry.specs.Numbers.{most_threads};
    ghost use Rattle.std.specs.Prelude.{◌≡◌, ◌≤◌, ◌-◌, ◌^◌, nat_lt, ◌&&◌, length};
    ghost use Rattle.dl_input.specs.Tracked.{Noted, tracked_from};

    ghost Value = { Noted };

    ghost view = { λ i. record {
      entries = tracked_from 0 i.moments.lanes;
      count = i.count;
      room = i.moments.room && nat_lt i.count (2 ^ 32 - 1);
    } };

    ghost invariant = { λ i. (length i.moments.lanes ≡ most_threads) × (length (tracked_from 0 i.moments.lanes) ≤ i.count) };
}

impl Interrupts {
    /// No interrupt.
    pub fn new(alloc: Global) -> Result<Interrupts, OutOfMemory>
        ensures entries { IfOk result (λ interrupts. interrupts.entries ≡ []) }
        ensures count { IfOk result (λ interrupts. interrupts.count ≡ 0) }
    {
        Ok(Interrupts {
            moments: Moments::new(alloc)?,
            count: 0,
        })
    }

    /// Makes room for one more interrupt.
    pub fn reserve(&mut self) -> Result<(), OutOfMemory>
        ensures entries { self.new.entries ≡ self.old.entries }
        ensures count { self.new.count ≡ self.old.count }
        ensures ok { OnOk result (IsTrue self.new.room) }
        ensures room { IsTrue self.old.room → IsOk result }
    {
        if self.count == u32::MAX {
            return Err(OutOfMemory);
        }
        self.moments.reserve()
    }

    /// Notes an interrupt of a new moment. If there is room, it isn't refused.
    pub fn note(&mut self, thread: u8, index: u32, value: u32) -> Result<(), OutOfMemory>
        requires thread { thread < most_threads }
        requires fresh { raised_at self.old.entries thread index ≡ None }
        ensures ok { OnOk result (self.new.entries ≡ insert_tracked (new_tracked thread index value) self.old.entries) }
        ensures count { OnOk result (self.new.count ≡ self.old.count + 1) }
        ensures err { OnErr result (self.new.entries ≡ self.old.entries) }
        ensures count_still { OnErr result (self.new.count ≡ self.old.count) }
        ensures few { length self.new.entries < 2 ^ 32 }
        ensures room { IsTrue self.old.room → IsOk result }
    {
        if self.count == u32::MAX {
            return Err(OutOfMemory);
        }
        let raised = Raised {
            value,
            taken: false,
        };
        self.moments.put(thread, index, raised)?;
        self.count += 1;
        Ok(())
    }

    /// The value that was raised at a thread after that many of its commits, taken or not.
    pub fn at(&self, thread: u8, index: u32) -> Option<u32>
        ensures { result ≡ option_map (λ r. r.value) (raised_at self.now.entries thread index) }
    {
        let raised = self.raised(thread, index)?;
        Some(raised.value)
    }

    fn raised(&self, thread: u8, index: u32) -> Option<Raised>
        ensures { result ≡ raised_at self.now.entries thread index }
    {
        self.moments.at(thread, index)
    }

    /// Takes the interrupt of a moment, if there is one.
    pub fn take(&mut self, thread: u8, index: u32)
        ensures entries { self.new.entries ≡ taken_at thread index self.old.entries }
        ensures count { self.new.count ≡ self.old.count }
        ensures room { self.new.room ≡ self.old.room }
    {
        if let Some(raised) = self.moments.at(thread, index) {
            let taken = Raised {
                value: raised.value,
                taken: true,
            };
            self.moments.set(thread, index, taken);
        }
    }

    /// Drops each thread's interrupts below its start, by the number of the thread; a thread without a start keeps all.
    pub fn forget(&mut self, starts: &[u32])
        ensures entries { self.new.entries ≡ tracked_since starts.now self.old.entries }
        ensures count { self.new.count ≡ self.old.count }
        ensures room { IsTrue self.old.room → IsTrue self.new.room }
    {
        self.moments.forget(starts);
    }

    /// Whether all are taken.
    pub fn used(&self) -> bool
        ensures { result ≡ list_all (λ s. s.raised.taken) self.now.entries }
    {
        for thread in 0..MOST_THREADS {
            if !all_taken(self.moments.lane(thread)) {
                return false;
            }
        }
        true
    }

    /// The i-th interrupt by thread and index, from 0, taken or not.
    pub fn nth(&self, i: u32) -> Option<Interrupt>
        ensures { result ≡ option_map interrupt_of (slice_get self.now.entries i) }
    {
        let mut left = i as usize;
        for thread in 0..MOST_THREADS {
            let lane = self.moments.lane(thread);
            if left < lane.len() {
                return Some(seen(thread, &lane[left]));
            }
            left -= lane.len();
        }
        None
    }

    /// The interrupts by thread and index.
    pub fn list(&self, alloc: Global) -> Result<Sequence<Interrupt>, OutOfMemory>
        ensures { IfOk result (λ list. list ≡ map interrupt_of self.now.entries) }
    {
        let mut list = Sequence::new(alloc);
        for thread in 0..MOST_THREADS {
            add_lane(&mut list, thread, self.moments.lane(thread))?;
        }
        Ok(list)
    }
}

fn seen(thread: u8, mark: &Mark<Raised>) -> Interrupt
    ensures { result ≡ interrupt_of (tracked_of thread mark.now) }
{
    Interrupt {
        thread,
        index: mark.index,
        value: mark.value.value,
    }
}

fn all_taken(lane: &[Mark<Raised>]) -> bool
    ensures { result ≡ list_all (λ m. m.value.taken) lane.now }
{
    for mark in lane {
        if !mark.value.taken {
            return false;
        }
    }
    true
}

fn add_lane(
    list: &mut Sequence<Interrupt>,
    thread: u8,
    lane: &[Mark<Raised>],
) -> Result<(), OutOfMemory>
    ensures { OnOk result (list.new ≡ list.old ++ map interrupt_of (map (tracked_of thread) lane.now)) }
{
    for mark in lane {
        list.push(seen(thread, mark))?;
    }
    Ok(())
}
