//! Sizes by thread and index, and the number of each thread's commits.
ghost use Rattle.std.specs.Prelude.{◌≡◌, ℕ, ◌+◌, nat_lt, ◌^◌, ◌<◌, ◌≤◌, [], ◌++◌, All, length, map, replicate, slice_index, IfOk};
ghost use Rattle.std.specs.Prelude.{IsOk, IsTrue, OnOk, OnErr};
ghost use Rattle.dl_entry.specs.Numbers.{most_threads};
ghost use Rattle.spec_log.specs.Log.{IsActor, AreShortSizes};
ghost use Rattle.spec_log.specs.Noting.{short_with, done_with};
ghost use Rattle.spec_log.specs.declared.sizes.Sizes.TheVariants.{Short};
ghost use Rattle.dl_mode.specs.ThreadSizes.{size_among, short_of};
ghost use Rattle.dl_mode.specs.Since.{short_since};
ghost use Rattle.std.specs.List.{list_all};
ghost use Rattle.dl_mode.specs.Lists.{AreShort};
ghost use Rattle.dl_mode.specs.Counts.{done_by};

use dl_entry::{Actor, MOST_THREADS, OutOfMemory, Sequence};
use dl_moments::{Mark, Moments, THREADS};
use spec_log::{ShortSize, Sizes};
use std::alloc::Global;
use std::marker::Model;

/// Sizes by thread and index, and the number of each thread's commits.
#[derive(Debug, Drop)]
pub struct ThreadSizes {
    sizes: Moments<u32>,
    done: [u32; THREADS],
}

impl Model for ThreadSizes {
    ghost use Rattle.dl_entry.specs.Numbers.{most_threads};
    ghost use Rattle.std.specs.Prelude.{◌≡◌, length};
    ghost use Rattle.dl_mode.specs.ThreadSizes.{ThreadSizes, sizes_from};

    ghost Value = { ThreadSizes };

    ghost view = { λ e. record { sizes = sizes_from 0 e.sizes.lanes; done = e.done; room = e.sizes.room } };

    ghost invariant = { λ e. length e.sizes.lanes ≡ most_threads };
}

impl ThreadSizes {
    pub fn new(alloc: Global) -> Result<ThreadSizes, OutOfMemory>
        ensures sizes { IfOk result (λ threads. threads.sizes ≡ []) }
        ensures done { IfOk result (λ threads. threads.done ≡ replicate most_threads 0) }
    {
        Ok(ThreadSizes {
            sizes: Moments::new(alloc)?,
            done: [0; THREADS],
        })
    }

    /// Sizes in a log's order, of which no commit is counted.
    pub fn from_list(alloc: Global, list: &[ShortSize], s: u32) -> Result<ThreadSizes, OutOfMemory>
        requires { AreShortSizes most_threads s list.now }
        ensures sizes { IfOk result (λ threads. threads.sizes ≡ list.now) }
        ensures done { IfOk result (λ threads. threads.done ≡ replicate most_threads 0) }
    {
        let mut sizes = Moments::new(alloc)?;
        for short in list {
            sizes.put(short.thread, short.index, short.size)?;
        }
        Ok(ThreadSizes {
            sizes,
            done: [0; THREADS],
        })
    }

    /// The same of sizes that are those of short chunks.
    pub fn from_sizes(alloc: Global, sizes: &Sizes, s: u32) -> Result<ThreadSizes, OutOfMemory>
        requires { AreShort s sizes.now }
        ensures sizes { IfOk result (λ threads. sizes.now ≡ Short threads.sizes) }
        ensures done { IfOk result (λ threads. threads.done ≡ replicate most_threads 0) }
    {
        match sizes {
            Sizes::Short(sizes) => ThreadSizes::from_list(alloc, sizes.as_slice(), s),
            Sizes::Each(_) => ThreadSizes::new(alloc),
        }
    }

    /// Makes room for one size more.
    pub fn reserve(&mut self) -> Result<(), OutOfMemory>
        ensures sizes { self.new.sizes ≡ self.old.sizes }
        ensures done { self.new.done ≡ self.old.done }
        ensures ok { OnOk result (IsTrue self.new.room) }
        ensures room { IsTrue self.old.room → IsOk result }
    {
        self.sizes.reserve()
    }

    /// Counts a commit, and keeps its size where its chunk is short. With room it isn't refused.
    pub fn note(&mut self, actor: Actor, size: u32, short: bool) -> Result<(), OutOfMemory>
        requires actor { IsActor most_threads actor }
        requires few { done_by self.old.done actor + 1 < 2 ^ 32 }
        ensures sizes { OnOk result (self.new.sizes ≡ short_with self.old.sizes self.old.done actor size short) }
        ensures done { OnOk result (self.new.done ≡ done_with self.old.done actor) }
        ensures sizes_kept { OnErr result (self.new.sizes ≡ self.old.sizes) }
        ensures done_kept { OnErr result (self.new.done ≡ self.old.done) }
        ensures room { IsTrue self.old.room → IsOk result }
    {
        let thread = match actor {
            Actor::Thread(thread) => thread,
            Actor::Dma => return Ok(()),
        };
        let index = self.done[usize::from(thread)];
        if short {
            self.sizes.put(thread, index, size)?;
        }
        self.done[usize::from(thread)] = index + 1;
        Ok(())
    }

    /// Drops the sizes of commits that were done when each thread had done so many. The commits are counted still.
    pub fn forget(&mut self, done: &[u32])
        ensures sizes { self.new.sizes ≡ short_since done.now self.old.sizes }
        ensures done { self.new.done ≡ self.old.done }
        ensures room { IsTrue self.old.room → IsTrue self.new.room }
    {
        self.sizes.forget(done);
    }

    /// The size of a thread's commit with so many of its commits before.
    pub fn size(&self, thread: u8, index: u32) -> Option<u32>
        ensures { result ≡ size_among self.now.sizes thread index }
    {
        self.sizes.at(thread, index)
    }

    /// How many commits a thread has done.
    pub fn done(&self, thread: u8) -> u32
        ensures { result ≡ slice_index self.now.done thread }
    {
        count_of(&self.done, thread)
    }

    /// Whether every size is of a commit that its thread has done.
    pub fn used(&self, done: &[u32]) -> bool
        ensures { result ≡ list_all (λ short. nat_lt short.index (slice_index done.now short.thread)) self.now.sizes }
    {
        for thread in 0..MOST_THREADS {
            if !all_below(self.sizes.lane(thread), count_of(done, thread)) {
                return false;
            }
        }
        true
    }

    /// The sizes by thread and index.
    pub fn list(&self, alloc: Global) -> Result<Sequence<ShortSize>, OutOfMemory>
        ensures { IfOk result (λ list. list ≡ self.now.sizes) }
    {
        let mut list = Sequence::new(alloc);
        for thread in 0..MOST_THREADS {
            add_lane(&mut list, thread, self.sizes.lane(thread))?;
        }
        Ok(list)
    }
}

fn add_lane(
    list: &mut Sequence<ShortSize>,
    thread: u8,
    lane: &[Mark<u32>],
) -> Result<(), OutOfMemory>
    ensures { OnOk result (list.new ≡ list.old ++ map (short_of thread) lane.now) }
{
    for mark in lane {
        list.push(ShortSize {
            thread,
            index: mark.index,
            size: mark.value,
        })?;
    }
    Ok(())
}

/// The number of a thread's commits, 0 where it isn't there.
pub fn count_of(done: &[u32], thread: u8) -> u32
    ensures { result ≡ slice_index done.now thread }
{
    match done.get(usize::from(thread)) {
        Some(done) => *done,
        None => 0,
    }
}

fn all_below(lane: &[Mark<u32>], done: u32) -> bool
    ensures { result ≡ list_all (λ mark. nat_lt mark.index done) lane.now }
{
    for mark in lane {
        if mark.index >= done {
            return false;
        }
    }
    true
}
