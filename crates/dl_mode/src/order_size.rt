//! Order-size: the order of commits, and the size of each.
ghost use Rattle.std.specs.Prelude.{None, ◌≡◌, ◌+◌, ◌^◌, ◌<◌, Bool, fold, IfOk, IsOk, IsTrue, OnOk, OnErr};
ghost use Rattle.spec_log.specs.declared.mode_name.ModeName.TheVariants.{OrderSize as BySize};
ghost use Rattle.dl_entry.specs.Numbers.{most_threads};
ghost use Rattle.spec_log.specs.Log.{IsActor};
ghost use Rattle.spec_log.specs.Noting.{noted, nothing_kept, kept_size, done_with};
ghost use Rattle.dl_mode.specs.Counts.{AreFew, done_by};
ghost use Rattle.dl_mode.specs.Lists.{AreLists};
ghost use Rattle.dl_mode.specs.Logged.{note};
ghost use Rattle.spec_log.specs.declared.sizes.Sizes.TheVariants.{Each};

use crate::lists::Lists;
use crate::mode::{Mode, Noting, is_head, limit_of};
use crate::thread_sizes::{ThreadSizes, count_of};
use dl_entry::{Actor, Commit, MOST_THREADS, OutOfMemory, Sequence};
use dl_moments::THREADS;
use spec_log::{ModeName, Order, Sizes};
use std::alloc::Global;
use std::marker::Model;

/// A log in order-size. Each thread's sizes stand by index too, so that one is found at once; the index counts the commits
/// that were given up as well.
#[derive(Debug, Drop)]
pub struct OrderSizeLog {
    s: u32,
    order: Vec<Actor>,
    sizes: Vec<u32>,
    threads: ThreadSizes,
    past: [u32; THREADS],
}

impl Model for OrderSizeLog {
    ghost use Rattle.std.specs.Prelude.{nat_lt, ◌&&◌, length, vec_len, vec_capacity};
    ghost use Rattle.spec_log.specs.declared.sizes.Sizes.TheVariants.{Each};
    ghost use Rattle.dl_mode.specs.Logged.{Logged};
    ghost use Rattle.dl_mode.specs.Whole.{IsWhole};

    ghost Value = { Logged };

    ghost view = { λ l. record {
      kept = record { s = l.s; count = length l.order.items; order = l.order.items; sizes = Each l.sizes.items; done = l.threads.done };
      room = nat_lt (vec_len l.order) (vec_capacity l.order) && nat_lt (vec_len l.sizes) (vec_capacity l.sizes) && l.threads.room;
    } };

    ghost invariant = { λ l. IsWhole l.order.items l.sizes.items l.past l.threads };
}

impl OrderSizeLog {
    fn empty(alloc: Global, s: u32) -> Result<OrderSizeLog, OutOfMemory>
        ensures { IfOk result (λ log. log.kept ≡ nothing_kept BySize s) }
    {
        Ok(OrderSizeLog {
            s,
            order: Vec::new(alloc),
            sizes: Vec::new(alloc),
            threads: ThreadSizes::new(alloc)?,
            past: [0; THREADS],
        })
    }

    /// Adds a commit. With room it isn't refused.
    fn push(&mut self, actor: Actor, size: u32) -> Result<(), OutOfMemory>
        requires actor { IsActor most_threads actor }
        requires commits { self.old.kept.count < 2 ^ 24 }
        requires done { done_by self.old.kept.done actor < 2 ^ 24 }
        ensures ok { (short : Bool) → OnOk result (self.new.kept ≡ noted BySize self.old.kept (note actor size short)) }
        ensures err { OnErr result (self.new.kept ≡ self.old.kept) }
        ensures room { IsTrue self.old.room → IsOk result }
    {
        self.order.reserve(1)?;
        self.sizes.reserve(1)?;
        self.threads.note(actor, size, true)?;
        self.order.push_reserved(actor);
        self.sizes.push_reserved(size);
        Ok(())
    }

    /// The size of a thread's commit with so many before it that weren't given up.
    fn size_of(&self, thread: u8, index: u32) -> Option<u32>
        ensures { result ≡ kept_size self.now.kept (Actor.Thread thread) index }
    {
        let past = count_of(&self.past, thread);
        if index < self.threads.done(thread) - past {
            self.threads.size(thread, past + index)
        } else {
            None
        }
    }
}

/// The mode that logs the order and every size.
pub struct OrderAndSize;

impl Mode for OrderAndSize {
    type Log = OrderSizeLog;

    ghost mode = { BySize };

    ghost logged = { λ log. log };

    ghost strata = { λ log. None };

    fn name() -> ModeName {
        ModeName::OrderSize
    }

    fn size(log: &OrderSizeLog, actor: Actor, index: u32) -> Option<u32> {
        match actor {
            Actor::Thread(thread) => log.size_of(thread, index),
            Actor::Dma => log.sizes.get(index as usize).copied(),
        }
    }

    fn limit(log: &OrderSizeLog, thread: u8, index: u32) -> u32 {
        limit_of(log.s, log.size_of(thread, index))
    }

    fn used(log: &OrderSizeLog, done: &[u32]) -> bool {
        for thread in 0..MOST_THREADS {
            let past = count_of(&log.past, thread);
            if log.threads.done(thread) - past > count_of(done, thread) {
                return false;
            }
        }
        true
    }

    fn head(
        log: &OrderSizeLog,
        position: u32,
        _: bool,
        _: Option<u8>,
        _: &[bool],
    ) -> Option<Actor> {
        log.order.get(position as usize).copied()
    }

    fn takes(_: &OrderSizeLog, head: Option<Actor>, actor: Actor) -> bool {
        is_head(head, actor)
    }

    fn begins(_: &OrderSizeLog) -> Option<bool> {
        None
    }

    fn comes_last(_: &OrderSizeLog, _: Actor) -> bool {
        true
    }

    fn advance(_: &mut OrderSizeLog, _: Actor) {}
}

impl Noting for OrderAndSize {
    fn new(alloc: Global, s: u32) -> Result<OrderSizeLog, OutOfMemory> {
        OrderSizeLog::empty(alloc, s)
    }

    fn reserve(log: &mut OrderSizeLog) -> Result<(), OutOfMemory> {
        log.threads.reserve()?;
        log.order.reserve(1)?;
        log.sizes.reserve(1)?;
        Ok(())
    }

    fn note(log: &mut OrderSizeLog, commit: &Commit, _: bool) -> Result<(), OutOfMemory> {
        log.push(commit.actor, commit.size)
    }

    fn forget(log: &mut OrderSizeLog, n: u32, _: &[u32]) {
        let n = (n as usize).min(log.order.len());
        count_each(&mut log.past, &log.order[..n]);
        log.threads.forget(&log.past);
        log.order.drain(..n);
        log.sizes.drain(..n);
    }

    fn lists(alloc: Global, log: &OrderSizeLog) -> Result<Lists, OutOfMemory> {
        Ok(Lists {
            mode: ModeName::OrderSize,
            s: log.s,
            count: log.order.len() as u32,
            order: Order::from_slice(alloc, &log.order)?,
            sizes: Sizes::Each(Sequence::from_slice(alloc, &log.sizes)?),
        })
    }

    fn from_lists(alloc: Global, lists: &Lists) -> Result<OrderSizeLog, OutOfMemory> {
        let mut log = OrderSizeLog::empty(alloc, lists.s)?;
        let order = lists.order.as_slice();
        let sizes = each_of(lists);
        for i in 0..order.len() {
            log.push(order[i], sizes[i])?;
        }
        Ok(log)
    }
}

/// Counts a commit of each actor; a DMA is no thread's.
fn count_each(counts: &mut [u32], actors: &[Actor])
    requires few { AreFew counts.old actors.now }
    ensures { counts.new ≡ fold done_with counts.old actors.now }
{
    for actor in actors {
        count_one(counts, *actor);
    }
}

fn count_one(counts: &mut [u32], actor: Actor)
    requires { done_by counts.old actor + 1 < 2 ^ 32 }
    ensures { counts.new ≡ done_with counts.old actor }
{
    let Actor::Thread(thread) = actor else {
        return;
    };
    let place = usize::from(thread);
    if place < counts.len() {
        counts[place] += 1;
    }
}

/// The size of each commit.
fn each_of(lists: &Lists) -> &[u32]
    requires { AreLists BySize lists.now }
    ensures { lists.now.sizes ≡ Each result.now }
{
    match &lists.sizes {
        Sizes::Each(sizes) => sizes.as_slice(),
        Sizes::Short(_) => &[],
    }
}
