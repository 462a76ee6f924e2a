//! Order-only: the order of commits, and the sizes of short chunks.
ghost use Rattle.std.specs.Prelude.{None, ◌≡◌};
ghost use Rattle.spec_log.specs.declared.mode_name.ModeName.TheVariants.{OrderOnly as ByOrder};

use crate::lists::Lists;
use crate::mode::{Mode, Noting, is_head, limit_of};
use crate::thread_sizes::ThreadSizes;
use dl_entry::{Actor, Commit, OutOfMemory};
use spec_log::{ModeName, Order, Sizes};
use std::alloc::Global;
use std::marker::Model;

/// A log in order-only.
#[derive(Debug, Drop)]
pub struct OrderOnlyLog {
    s: u32,
    order: Vec<Actor>,
    short: ThreadSizes,
}

impl Model for OrderOnlyLog {
    ghost use Rattle.std.specs.Prelude.{◌^◌, ◌≤◌, nat_lt, ◌&&◌, length, vec_len, vec_capacity};
    ghost use Rattle.spec_log.specs.declared.sizes.Sizes.TheVariants.{Short};
    ghost use Rattle.dl_mode.specs.Logged.{Logged};

    ghost Value = { Logged };

    ghost view = { λ l. record {
      kept = record { s = l.s; count = length l.order.items; order = l.order.items; sizes = Short l.short.sizes; done = l.short.done };
      room = nat_lt (vec_len l.order) (vec_capacity l.order) && l.short.room;
    } };

    ghost invariant = { λ l. length l.order.items ≤ 2 ^ 24 };
}

/// The mode that logs the order alone, and the sizes that a replay couldn't find.
pub struct OrderOnly;

impl Mode for OrderOnly {
    type Log = OrderOnlyLog;

    ghost mode = { ByOrder };

    ghost logged = { λ log. log };

    ghost strata = { λ log. None };

    fn name() -> ModeName {
        ModeName::OrderOnly
    }

    fn size(log: &OrderOnlyLog, actor: Actor, index: u32) -> Option<u32> {
        match actor {
            Actor::Thread(thread) => log.short.size(thread, index),
            Actor::Dma => None,
        }
    }

    fn limit(log: &OrderOnlyLog, thread: u8, index: u32) -> u32 {
        limit_of(log.s, log.short.size(thread, index))
    }

    fn used(log: &OrderOnlyLog, done: &[u32]) -> bool {
        log.short.used(done)
    }

    fn head(
        log: &OrderOnlyLog,
        position: u32,
        _: bool,
        _: Option<u8>,
        _: &[bool],
    ) -> Option<Actor> {
        log.order.get(position as usize).copied()
    }

    fn takes(_: &OrderOnlyLog, head: Option<Actor>, actor: Actor) -> bool {
        is_head(head, actor)
    }

    fn begins(_: &OrderOnlyLog) -> Option<bool> {
        None
    }

    fn comes_last(_: &OrderOnlyLog, _: Actor) -> bool {
        true
    }

    fn advance(_: &mut OrderOnlyLog, _: Actor) {}
}

impl Noting for OrderOnly {
    fn new(alloc: Global, s: u32) -> Result<OrderOnlyLog, OutOfMemory> {
        Ok(OrderOnlyLog {
            s,
            order: Vec::new(alloc),
            short: ThreadSizes::new(alloc)?,
        })
    }

    fn reserve(log: &mut OrderOnlyLog) -> Result<(), OutOfMemory> {
        log.short.reserve()?;
        log.order.reserve(1)?;
        Ok(())
    }

    fn note(
        log: &mut OrderOnlyLog,
        commit: &Commit,
        closed_short: bool,
    ) -> Result<(), OutOfMemory> {
        log.order.reserve(1)?;
        log.short.note(commit.actor, commit.size, closed_short)?;
        log.order.push_reserved(commit.actor);
        Ok(())
    }

    fn forget(log: &mut OrderOnlyLog, n: u32, done: &[u32]) {
        let n = (n as usize).min(log.order.len());
        log.order.drain(..n);
        log.short.forget(done);
    }

    fn lists(alloc: Global, log: &OrderOnlyLog) -> Result<Lists, OutOfMemory> {
        Ok(Lists {
            mode: ModeName::OrderOnly,
            s: log.s,
            count: log.order.len() as u32,
            order: Order::from_slice(alloc, &log.order)?,
            sizes: Sizes::Short(log.short.list(alloc)?),
        })
    }

    fn from_lists(alloc: Global, lists: &Lists) -> Result<OrderOnlyLog, OutOfMemory> {
        let order = Vec::from_slice(alloc, lists.order.as_slice())?;
        let mut short = ThreadSizes::from_sizes(alloc, &lists.sizes, lists.s)?;
        // The sizes stand already: this counts the commits.
        for actor in &order {
            short.note(*actor, 0, false)?;
        }
        Ok(OrderOnlyLog {
            s: lists.s,
            order,
            short,
        })
    }
}
