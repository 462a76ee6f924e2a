//! The lists of small recordings in each mode.
ghost use Rattle.std.specs.Prelude.{◌≡◌, IfOk};
ghost use Rattle.dl_entry.specs.Numbers.{most_threads};
ghost use Rattle.spec_log.specs.Log.{IsActor};
ghost use Rattle.spec_log.specs.declared.sizes.Sizes.TheVariants.{Short};
ghost use Rattle.dl_mode.specs.Lists.{AreLists};

use dl_entry::{Actor, Commit, CommitKind, Loads, OutOfMemory, Outputs, Sequence};
use dl_mode::{Lists, Mode, Noting, OrderAndSize, OrderOnly, PicoLog};
use spec_log::{ModeName, Order, ShortSize, Sizes};
use std::alloc::Global;
use std::process::Abort;
use std::test::Fail;

/// The actors, the sizes, and whether the chunks were closed early: two threads, with chunks that were closed early
/// between others and a DMA.
const COMMITS: &[(u8, u32, bool)] = &[
    (1, 2, true),
    (15, 0, false),
    (0, 100, false),
    (0, 8, true),
    (1, 3, true),
    (0, 0, false),
];

/// What a log of them keeps: its mode, the order, the sizes, and what it answers.
struct Told {
    mode: ModeName,
    order: &'static [Actor],
    sizes: Kept,
    looks: &'static [Look],
}

/// The size of each commit, or those of the chunks that were closed early.
enum Kept {
    Each(&'static [u32]),
    Short(&'static [ShortSize]),
}

/// A question with its answer: an actor's size at an index; a thread's limit at an index; whether all sizes are used by that many
/// commits of each thread; whose commit is next at a position, after which thread's, given which threads are live.
enum Look {
    Size(Actor, u32, Option<u32>),
    Limit(u8, u32, u32),
    Used(&'static [u32], bool),
    Head(u32, bool, Option<u8>, &'static [bool], Option<Actor>),
}

#[test]
fn order_size_keeps_every_size(rt: HostRuntime) -> Result<(), Fail> {
    keeps::<OrderAndSize>(&rt, rt.alloc(), &ORDER_SIZE)
}

#[test]
fn order_only_keeps_early_sizes_by_thread_and_index(rt: HostRuntime) -> Result<(), Fail> {
    keeps::<OrderOnly>(&rt, rt.alloc(), &ORDER_ONLY)
}

#[test]
fn picolog_takes_turns(rt: HostRuntime) -> Result<(), Fail> {
    keeps::<PicoLog>(&rt, rt.alloc(), &PICOLOG)
}

fn keeps<M: Noting>(rt: &impl Abort, alloc: Global, told: &Told) -> Result<(), Fail> {
    let log = noted::<M>(alloc)?;
    assert!(rt; has_lists::<M>(alloc, &log, told)?);
    shows::<M>(rt, &log, told.looks);
    Ok(())
}

fn has_lists<M: Noting>(alloc: Global, log: &M::Log, told: &Told) -> Result<bool, OutOfMemory> {
    let lists = M::lists(alloc, log)?;
    Ok(are_as_told(&lists, told) && lists.order.as_slice() == told.order)
}

fn are_as_told(lists: &Lists, told: &Told) -> bool {
    lists.mode == told.mode
        && lists.s == 100
        && lists.count == 6
        && are_sizes(&lists.sizes, &told.sizes)
}

fn are_sizes(sizes: &Sizes, kept: &Kept) -> bool {
    match (sizes, kept) {
        (Sizes::Each(sizes), Kept::Each(kept)) => sizes.as_slice() == *kept,
        (Sizes::Short(sizes), Kept::Short(kept)) => sizes.as_slice() == *kept,
        _ => false,
    }
}

fn shows<M: Mode>(rt: &impl Abort, log: &M::Log, looks: &[Look]) {
    for (i, look) in looks.iter().enumerate() {
        assert!(rt; is_seen::<M>(log, look), "look {i}");
    }
}

fn is_seen<M: Mode>(log: &M::Log, look: &Look) -> bool {
    match look {
        Look::Size(actor, index, size) => M::size(log, *actor, *index) == *size,
        Look::Limit(thread, index, limit) => M::limit(log, *thread, *index) == *limit,
        Look::Used(done, used) => M::used(log, done) == *used,
        Look::Head(position, dma, last, live, head) => {
            M::head(log, *position, *dma, *last, live) == *head
        }
    }
}

const ORDER_SIZE: Told = Told {
    mode: ModeName::OrderSize,
    order: ORDER,
    sizes: Kept::Each(SIZES),
    looks: &[
        Look::Size(Actor::Thread(1), 1, Some(3)),
        Look::Size(Actor::Thread(0), 2, Some(0)),
        Look::Size(Actor::Thread(0), 3, None),
        Look::Size(Actor::Dma, 1, Some(0)),
        Look::Limit(0, 2, 1),
        Look::Used(&[3, 2], true),
        Look::Used(&[3, 1], false),
        Look::Head(1, false, None, &[], Some(Actor::Dma)),
    ],
};

const ORDER_ONLY: Told = Told {
    mode: ModeName::OrderOnly,
    order: ORDER,
    sizes: Kept::Short(EARLY),
    looks: &[
        Look::Limit(0, 1, 8),
        Look::Limit(0, 0, 100),
        Look::Used(&[2, 2], true),
        Look::Used(&[1, 2], false),
    ],
};

const PICOLOG: Told = Told {
    mode: ModeName::Picolog,
    order: &[],
    sizes: Kept::Short(EARLY),
    looks: &[
        Look::Head(0, false, None, THREE, Some(Actor::Thread(0))),
        Look::Head(0, false, Some(0), THREE, Some(Actor::Thread(2))),
        Look::Head(0, false, Some(2), THREE, Some(Actor::Thread(0))),
        Look::Head(0, true, Some(0), THREE, Some(Actor::Dma)),
        Look::Head(0, false, Some(1), &[false, false], None),
    ],
};

// Of three threads the second isn't live.
const THREE: &[bool] = &[true, false, true];

#[test]
fn logs_are_made_of_their_lists(rt: HostRuntime) -> Result<(), Fail> {
    shows::<OrderAndSize>(&rt, &order_size(rt.alloc())?, MADE_OF_EACH);
    shows::<OrderOnly>(&rt, &order_only(rt.alloc())?, MADE_OF_SHORT);
    shows::<PicoLog>(&rt, &picolog(rt.alloc())?, MADE_OF_TURNS);
    Ok(())
}

const MADE_OF_EACH: &[Look] = &[
    Look::Size(Actor::Thread(1), 1, Some(3)),
    Look::Limit(0, 2, 1),
    Look::Used(&[3, 1], false),
];

const MADE_OF_SHORT: &[Look] = &[
    Look::Limit(0, 1, 8),
    Look::Head(1, false, None, &[], Some(Actor::Dma)),
];

const MADE_OF_TURNS: &[Look] = &[Look::Limit(1, 1, 3), Look::Used(&[2, 2], true)];

fn order_size(alloc: Global) -> Result<<OrderAndSize as Mode>::Log, OutOfMemory> {
    let each = Sizes::Each(Sequence::from_slice(alloc, SIZES)?);
    made::<OrderAndSize>(alloc, ORDER, each)
}

fn order_only(alloc: Global) -> Result<<OrderOnly as Mode>::Log, OutOfMemory> {
    made::<OrderOnly>(alloc, ORDER, early(alloc)?)
}

fn picolog(alloc: Global) -> Result<<PicoLog as Mode>::Log, OutOfMemory> {
    made::<PicoLog>(alloc, &[], early(alloc)?)
}

const ORDER: &[Actor] = &[
    Actor::Thread(1),
    Actor::Dma,
    Actor::Thread(0),
    Actor::Thread(0),
    Actor::Thread(1),
    Actor::Thread(0),
];

const SIZES: &[u32] = &[2, 0, 100, 8, 3, 0];

const EARLY: &[ShortSize] = &[
    ShortSize {
        thread: 0,
        index: 1,
        size: 8,
    },
    ShortSize {
        thread: 1,
        index: 0,
        size: 2,
    },
    ShortSize {
        thread: 1,
        index: 1,
        size: 3,
    },
];

fn noted<M: Noting>(alloc: Global) -> Result<M::Log, OutOfMemory> {
    let mut log = M::new(alloc, 100)?;
    for (code, size, early) in COMMITS {
        let commit = Commit {
            actor: actor_of(*code),
            kind: CommitKind::Chunk,
            size: *size,
            loads: Loads::new(alloc),
            outputs: Outputs::new(alloc),
        };
        M::reserve(&mut log)?;
        M::note(&mut log, &commit, *early)?;
    }
    Ok(log)
}

fn actor_of(code: u8) -> Actor
    ensures { IsActor most_threads result }
{
    if code < 15 {
        Actor::Thread(code)
    } else {
        Actor::Dma
    }
}

/// A log of the lists of six commits.
fn made<M: Noting>(alloc: Global, order: &[Actor], sizes: Sizes) -> Result<M::Log, OutOfMemory>
    requires { AreLists M.mode (record { mode = M.mode; s = 100; count = 6; order = order.now; sizes = sizes }) }
{
    let lists = Lists {
        mode: M::name(),
        s: 100,
        count: 6,
        order: Order::from_slice(alloc, order)?,
        sizes,
    };
    M::from_lists(alloc, &lists)
}

fn early(alloc: Global) -> Result<Sizes, OutOfMemory>
    ensures { IfOk result (λ sizes. sizes ≡ Short EARLY.now) }
{
    Ok(Sizes::Short(Sequence::from_slice(alloc, EARLY)?))
}
