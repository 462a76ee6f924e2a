//! The log that has the order of some strata.
ghost use Rattle.std.specs.Prelude.{◌≡◌, ◌≤◌, ◌++◌, length, map, replicate, All, IfOk, OnOk};
ghost use Rattle.std.specs.List.{flat_map};
ghost use Rattle.dl_entry.specs.declared.Actor.{Actor};
ghost use Rattle.spec_strata.specs.Canonical.{canonical, order_of as order_in, rising};
ghost use Rattle.dl_strata.specs.Runs.{HasFewCounts};

use dl_entry::{Actor, OutOfMemory, Sequence};
use dl_logfmt::{copy_dmas, copy_inputs};
use spec_log::{Log, LogParts, ModeName, Order, Sizes};
use spec_strata::{Strata, Stratum};
use std::alloc::Global;

/// The log that has the order of these strata: of version 2, in order-only, with the strata in their order and the threads of each
/// rising.
pub fn canonical_log(alloc: Global, strata: &Strata) -> Result<Log, OutOfMemory>
    ensures { IfOk result (λ log. log ≡ canonical strata.now) }
{
    let parts = strata.parts();
    let order = order_of(alloc, parts.strata.as_slice())?;
    Ok(Log::new(LogParts {
        version: 2,
        threads: parts.threads,
        mode: ModeName::OrderOnly,
        s: parts.s,
        count: order.len() as u32,
        order,
        sizes: Sizes::Short(Sequence::from_slice(alloc, parts.sizes.as_slice())?),
        interrupts: Sequence::from_slice(alloc, parts.interrupts.as_slice())?,
        inputs: copy_inputs(alloc, parts.inputs.as_slice())?,
        dmas: copy_dmas(alloc, parts.dmas.as_slice())?,
    }))
}

/// The actors of all commits.
fn order_of(alloc: Global, runs: &[Stratum]) -> Result<Order, OutOfMemory>
    requires { All HasFewCounts runs.now }
    ensures { IfOk result (λ order. order ≡ flat_map order_in runs.now) }
{
    let mut order = Order::new(alloc);
    for run in runs {
        put_run(&mut order, run)?;
    }
    Ok(order)
}

/// Puts the actors of a stratum after others.
fn put_run(order: &mut Order, run: &Stratum) -> Result<(), OutOfMemory>
    requires { HasFewCounts run.now }
    ensures { OnOk result (order.new ≡ order.old ++ order_in run.now) }
{
    match run {
        Stratum::Chunks(counts) => put_chunks(order, counts.as_slice()),
        Stratum::Serial(thread) => order.push(Actor::Thread(*thread)),
        Stratum::Dma => order.push(Actor::Dma),
    }
}

/// Puts each thread as often as it is counted.
fn put_chunks(order: &mut Order, counts: &[u8]) -> Result<(), OutOfMemory>
    requires { length counts.now ≤ 255 }
    ensures { OnOk result (order.new ≡ order.old ++ map Actor.Thread (rising 0 counts.now)) }
{
    let mut thread = 0;
    for count in counts {
        put_often(order, Actor::Thread(thread), *count)?;
        thread += 1;
    }
    Ok(())
}

/// Puts an actor so many times.
fn put_often(order: &mut Order, actor: Actor, count: u8) -> Result<(), OutOfMemory>
    ensures { OnOk result (order.new ≡ order.old ++ replicate count actor) }
{
    for _ in 0..count {
        order.push(actor)?;
    }
    Ok(())
}
