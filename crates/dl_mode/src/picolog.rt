//! Picolog: no order, since threads take turns, and the sizes of short chunks.
ghost use Rattle.std.specs.Prelude.{None, ◌≡◌, ◌<◌, ◌≤◌, length, take, IfSome};
ghost use Rattle.dl_entry.specs.Numbers.{most_threads};
ghost use Rattle.spec_log.specs.declared.mode_name.ModeName.TheVariants.{Picolog as ByTurn};
ghost use Rattle.spec_log.specs.Head.{turn as turn_of, first_live as first_of, next_live as next_of};

use crate::lists::Lists;
use crate::mode::{Mode, Noting, is_head, limit_of};
use crate::thread_sizes::ThreadSizes;
use dl_entry::{Actor, Commit, OutOfMemory};
use dl_moments::THREADS;
use spec_log::{ModeName, Order, Sizes};
use std::alloc::Global;
use std::marker::Model;

/// A log in picolog.
#[derive(Debug, Drop)]
pub struct TurnLog {
    s: u32,
    count: u32,
    short: ThreadSizes,
}

impl Model for TurnLog {
    ghost use Rattle.std.specs.Prelude.{[]};
    ghost use Rattle.spec_log.specs.declared.sizes.Sizes.TheVariants.{Short};
    ghost use Rattle.dl_mode.specs.Logged.{Logged};

    ghost Value = { Logged };

    ghost view = { λ l. record {
      kept = record { s = l.s; count = l.count; order = []; sizes = Short l.short.sizes; done = l.short.done };
      room = l.short.room;
    } };
}

/// The mode in which threads take turns.
pub struct PicoLog;

impl Mode for PicoLog {
    type Log = TurnLog;

    ghost mode = { ByTurn };

    ghost logged = { λ log. log };

    ghost strata = { λ log. None };

    fn name() -> ModeName {
        ModeName::Picolog
    }

    fn size(log: &TurnLog, actor: Actor, index: u32) -> Option<u32> {
        match actor {
            Actor::Thread(thread) => log.short.size(thread, index),
            Actor::Dma => None,
        }
    }

    fn limit(log: &TurnLog, thread: u8, index: u32) -> u32 {
        limit_of(log.s, log.short.size(thread, index))
    }

    fn used(log: &TurnLog, done: &[u32]) -> bool {
        log.short.used(done)
    }

    fn head(_: &TurnLog, _: u32, dma: bool, last: Option<u8>, live: &[bool]) -> Option<Actor> {
        if dma {
            return Some(Actor::Dma);
        }
        Some(Actor::Thread(turn(last, named(live))?))
    }

    fn takes(_: &TurnLog, head: Option<Actor>, actor: Actor) -> bool {
        is_head(head, actor)
    }

    fn begins(_: &TurnLog) -> Option<bool> {
        None
    }

    fn comes_last(_: &TurnLog, _: Actor) -> bool {
        true
    }

    fn advance(_: &mut TurnLog, _: Actor) {}
}

impl Noting for PicoLog {
    fn new(alloc: Global, s: u32) -> Result<TurnLog, OutOfMemory> {
        Ok(TurnLog {
            s,
            count: 0,
            short: ThreadSizes::new(alloc)?,
        })
    }

    fn reserve(log: &mut TurnLog) -> Result<(), OutOfMemory> {
        log.short.reserve()
    }

    fn note(log: &mut TurnLog, commit: &Commit, closed_short: bool) -> Result<(), OutOfMemory> {
        log.short.note(commit.actor, commit.size, closed_short)?;
        log.count += 1;
        Ok(())
    }

    fn forget(log: &mut TurnLog, n: u32, done: &[u32]) {
        log.count = log.count.saturating_sub(n);
        log.short.forget(done);
    }

    fn lists(alloc: Global, log: &TurnLog) -> Result<Lists, OutOfMemory> {
        Ok(Lists {
            mode: ModeName::Picolog,
            s: log.s,
            count: log.count,
            order: Order::new(alloc),
            sizes: Sizes::Short(log.short.list(alloc)?),
        })
    }

    fn from_lists(alloc: Global, lists: &Lists) -> Result<TurnLog, OutOfMemory> {
        Ok(TurnLog {
            s: lists.s,
            count: lists.count,
            short: ThreadSizes::from_sizes(alloc, &lists.sizes, lists.s)?,
        })
    }
}

/// Those that a log can name.
fn named(live: &[bool]) -> &[bool]
    ensures { result.now ≡ take most_threads live.now }
{
    match live.get(..THREADS) {
        Some(named) => named,
        None => live,
    }
}

/// The next live thread after the last that committed, cyclic; at first from thread 0 on.
pub fn turn(last: Option<u8>, live: &[bool]) -> Option<u8>
    requires { length live.now ≤ most_threads }
    ensures { result ≡ turn_of last live.now }
{
    match last {
        Some(last) => match next_live(last, live) {
            Some(thread) => Some(thread),
            None => first_live(live),
        },
        None => first_live(live),
    }
}

/// The first live thread of a higher number.
fn next_live(last: u8, live: &[bool]) -> Option<u8>
    requires { length live.now ≤ most_threads }
    ensures { result ≡ next_of last live.now }
{
    let start = usize::from(last) + 1;
    let place = first(live.get(start..)?)?;
    Some((start + place) as u8)
}

fn first_live(live: &[bool]) -> Option<u8>
    requires { length live.now ≤ most_threads }
    ensures { result ≡ first_of live.now }
{
    let place = first(live)?;
    Some(place as u8)
}

/// The place of the first that lives.
fn first(live: &[bool]) -> Option<usize>
    ensures value { result ≡ first_of live.now }
    ensures within { IfSome result (λ place. place < length live.now) }
{
    live.iter().position(|lives| *lives)
}
