//! The parts of a log, each copied into the store that it is looked up in.
ghost use Rattle.std.specs.Prelude.{◌≡◌, None, map, IfOk};
ghost use Rattle.dl_entry.specs.Numbers.{most_threads};
ghost use Rattle.spec_log.specs.Log.{IsLog, AreInterrupts, AreInputs, AreDmas};
ghost use Rattle.dl_input.specs.Tracked.{interrupt_of};
ghost use Rattle.dl_mode.specs.Lists.{lists_of};
ghost use Rattle.dl_replay.specs.Lists.{lists_in};

use dl_entry::{Input, OutOfMemory, Sequence};
use dl_input::{Dmas, Inputs, Interrupts};
use dl_mode::{Lists, Noting};
use spec_log::{DmaRecord, Interrupt, LogParts, Order, Sizes};
use std::alloc::Global;

/// The order and the sizes.
pub fn kept_of<M: Noting>(alloc: Global, parts: &LogParts) -> Result<M::Log, OutOfMemory>
    requires log { IsLog parts.now }
    requires mode { parts.now.mode ≡ M.mode }
    ensures lists { IfOk result (λ log. lists_of M.mode (M.logged log).kept ≡ lists_in parts.now) }
    ensures strata { IfOk result (λ log. M.strata log ≡ None) }
{
    let lists = Lists {
        mode: parts.mode,
        s: parts.s,
        count: parts.count,
        order: Order::from_slice(alloc, parts.order.as_slice())?,
        sizes: sizes_of(alloc, &parts.sizes)?,
    };
    M::from_lists(alloc, &lists)
}

fn sizes_of(alloc: Global, sizes: &Sizes) -> Result<Sizes, OutOfMemory>
    ensures { IfOk result (λ copy. copy ≡ sizes.now) }
{
    match sizes {
        Sizes::Each(sizes) => Ok(Sizes::Each(Sequence::from_slice(alloc, sizes.as_slice())?)),
        Sizes::Short(sizes) => Ok(Sizes::Short(Sequence::from_slice(alloc, sizes.as_slice())?)),
    }
}

pub fn interrupts_of(alloc: Global, list: &[Interrupt]) -> Result<Interrupts, OutOfMemory>
    requires { AreInterrupts most_threads list.now }
    ensures { IfOk result (λ interrupts. map interrupt_of interrupts.entries ≡ list.now) }
{
    let mut interrupts = Interrupts::new(alloc)?;
    for interrupt in list {
        interrupts.note(interrupt.thread, interrupt.index, interrupt.value)?;
    }
    Ok(interrupts)
}

pub fn inputs_of(alloc: Global, list: &[Input]) -> Result<Inputs, OutOfMemory>
    requires { AreInputs list.now }
    ensures { IfOk result (λ inputs. inputs.inputs ≡ list.now) }
{
    let mut inputs = Inputs::new(alloc);
    for input in list {
        inputs.note(input)?;
    }
    Ok(inputs)
}

pub fn dmas_of(alloc: Global, list: &[DmaRecord]) -> Result<Dmas, OutOfMemory>
    requires { AreDmas list.now }
    ensures { IfOk result (λ dmas. dmas.dmas ≡ list.now) }
{
    let mut dmas = Dmas::new(alloc);
    for dma in list {
        dmas.note(dma.position, dma.bytes.as_slice())?;
    }
    Ok(dmas)
}
