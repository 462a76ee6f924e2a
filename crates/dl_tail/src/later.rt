//! The log of a tail without what is logged for moments before the base. A tail plays as this log does, except for what is
//! left over at its end.
ghost use Rattle.std.specs.Prelude.{◌≡◌, ℕ, ◌++◌, ◌∷◌, [], not, length, IfOk, OnOk};
ghost use Rattle.std.specs.List.{list_any};
ghost use Rattle.spec_play.specs.Verdicts.{interrupt_at};
ghost use Rattle.spec_tail.specs.Later.{dmas_later as dmas_that_follow, dmas_passed as dmas_that_pass};
ghost use Rattle.spec_tail.specs.Later.{has_early_size as has_size_before, has_more_left as has_more_unused};
ghost use Rattle.spec_tail.specs.Later.{interrupts_later as interrupts_that_follow, is_early_dma as is_dma_before};
ghost use Rattle.spec_tail.specs.Later.{is_early_size as is_size_before, is_later_interrupt as is_interrupt_after};
ghost use Rattle.spec_tail.specs.Later.{log_later as log_that_follows, raised_at, sizes_later as sizes_that_follow};
ghost use Rattle.spec_tail.specs.Playing.{begun as begun_by};
ghost use Rattle.dl_tail.specs.Later.{short_that_follow};

use crate::tail::Tail;
use dl_entry::{Bytes, Input, OutOfMemory, Sequence};
use dl_logfmt::Log;
use spec_isa::thread::Parts;
use spec_log::{DmaRecord, Interrupt, LogParts, Order, ShortSize, Sizes};
use spec_play::Used;
use std::alloc::Global;

/// The log of what follows the base, with thread indexes and DMA slots counted from there. Interrupts for first commits
/// aren't in it.
pub fn log_later(alloc: Global, tail: &Tail) -> Result<Log, OutOfMemory>
    ensures { IfOk result (λ log. log ≡ log_that_follows tail.now) }
{
    let parts = tail.parts();
    let log = parts.log.parts();
    let threads = parts.threads.as_slice();
    Ok(Log::new(LogParts {
        version: log.version,
        threads: log.threads,
        mode: log.mode,
        s: log.s,
        count: log.count,
        order: Order::from_slice(alloc, log.order.as_slice())?,
        sizes: sizes_later(alloc, threads, &log.sizes)?,
        interrupts: interrupts_later(alloc, threads, log.interrupts.as_slice())?,
        inputs: inputs_again(alloc, log.inputs.as_slice())?,
        dmas: dmas_later(alloc, parts.base, log.dmas.as_slice())?,
    }))
}

/// How many commits of a thread come before the base.
pub fn begun(threads: &[Parts], thread: u8) -> u32
    ensures { result ≡ begun_by threads.now thread }
{
    match threads.get(usize::from(thread)) {
        Some(parts) => parts.commits,
        None => 0,
    }
}

// ---- sizes

fn sizes_later(alloc: Global, threads: &[Parts], sizes: &Sizes) -> Result<Sizes, OutOfMemory>
    ensures { IfOk result (λ later. later ≡ sizes_that_follow threads.now sizes.now) }
{
    match sizes {
        Sizes::Each(sizes) => Ok(Sizes::Each(Sequence::from_slice(alloc, sizes.as_slice())?)),
        Sizes::Short(sizes) => Ok(Sizes::Short(short_later(alloc, threads, sizes.as_slice())?)),
    }
}

fn short_later(
    alloc: Global,
    threads: &[Parts],
    sizes: &[ShortSize],
) -> Result<Sequence<ShortSize>, OutOfMemory>
    ensures { IfOk result (λ later. later ≡ short_that_follow threads.now sizes.now) }
{
    let mut later = Sequence::new(alloc);
    for size in sizes {
        add_size(&mut later, threads, *size)?;
    }
    Ok(later)
}

fn add_size(
    later: &mut Sequence<ShortSize>,
    threads: &[Parts],
    size: ShortSize,
) -> Result<(), OutOfMemory>
    ensures { OnOk result (later.new ≡ later.old ++ short_that_follow threads.now (size ∷ [])) }
{
    if is_early_size(threads, size) {
        return Ok(());
    }
    later.push(ShortSize {
        index: size.index - begun(threads, size.thread),
        ..size
    })
}

/// Whether a size is of a commit before the base.
fn is_early_size(threads: &[Parts], size: ShortSize) -> bool
    ensures { result ≡ is_size_before threads.now size }
{
    size.index < begun(threads, size.thread)
}

fn has_early_size(threads: &[Parts], sizes: &Sizes) -> bool
    ensures { result ≡ has_size_before threads.now sizes.now }
{
    match sizes {
        Sizes::Each(_) => false,
        Sizes::Short(sizes) => has_early_short(threads, sizes.as_slice()),
    }
}

fn has_early_short(threads: &[Parts], sizes: &[ShortSize]) -> bool
    ensures { result ≡ list_any (is_size_before threads.now) sizes.now }
{
    sizes.iter().any(|size| is_early_size(threads, *size))
}

// ---- interrupts

fn interrupts_later(
    alloc: Global,
    threads: &[Parts],
    interrupts: &[Interrupt],
) -> Result<Sequence<Interrupt>, OutOfMemory>
    ensures { IfOk result (λ later. later ≡ interrupts_that_follow threads.now interrupts.now) }
{
    let mut later = Sequence::new(alloc);
    for interrupt in interrupts {
        add_interrupt(&mut later, threads, *interrupt)?;
    }
    Ok(later)
}

fn add_interrupt(
    later: &mut Sequence<Interrupt>,
    threads: &[Parts],
    interrupt: Interrupt,
) -> Result<(), OutOfMemory>
    ensures { OnOk result (later.new ≡ later.old ++ interrupts_that_follow threads.now (interrupt ∷ [])) }
{
    let begun = begun(threads, interrupt.thread);
    if interrupt.index <= begun {
        return Ok(());
    }
    later.push(Interrupt {
        index: interrupt.index - begun,
        ..interrupt
    })
}

/// The value that is logged for the first commit of a thread after the base.
pub fn first_interrupt(tail: &Tail, thread: u8) -> Option<u32>
    ensures { let t = tail.now in result ≡ interrupt_at t.log.interrupts thread (begun_by t.threads thread) }
{
    let parts = tail.parts();
    let begun = begun(parts.threads.as_slice(), thread);
    value_at(parts.log.parts().interrupts.as_slice(), thread, begun)
}

fn value_at(interrupts: &[Interrupt], thread: u8, index: u32) -> Option<u32>
    ensures { result ≡ interrupt_at interrupts.now thread index }
{
    let interrupt = interrupts.iter().find(|interrupt| interrupt.thread == thread
        && interrupt.index == index)?;
    Some(interrupt.value)
}

// ---- inputs

fn inputs_again(alloc: Global, inputs: &[Input]) -> Result<Sequence<Input>, OutOfMemory>
    ensures { IfOk result (λ copy. copy ≡ inputs.now) }
{
    let mut copy = Sequence::new(alloc);
    for input in inputs {
        copy.push(Input {
            kind: input.kind,
            result: input.result,
            bytes: Bytes::from_slice(alloc, input.bytes.as_slice())?,
        })?;
    }
    Ok(copy)
}

// ---- DMAs

fn dmas_later(
    alloc: Global,
    base: u32,
    dmas: &[DmaRecord],
) -> Result<Sequence<DmaRecord>, OutOfMemory>
    ensures { (count : ℕ) → IfOk result (λ later. later ≡ dmas_that_follow base count dmas.now) }
{
    let mut later = Sequence::new(alloc);
    for dma in dmas {
        add_dma(alloc, &mut later, base, dma)?;
    }
    Ok(later)
}

fn add_dma(
    alloc: Global,
    later: &mut Sequence<DmaRecord>,
    base: u32,
    dma: &DmaRecord,
) -> Result<(), OutOfMemory>
    ensures { (count : ℕ) → OnOk result (later.new ≡ later.old ++ dmas_that_follow base count (dma.now ∷ [])) }
{
    if is_early_dma(base, dma) {
        return Ok(());
    }
    later.push(DmaRecord {
        position: dma.position - base,
        bytes: Bytes::from_slice(alloc, dma.bytes.as_slice())?,
    })
}

/// Whether a DMA comes before the base.
fn is_early_dma(base: u32, dma: &DmaRecord) -> bool
    ensures { result ≡ is_dma_before base dma.now }
{
    dma.position < base
}

fn has_early_dma(base: u32, dmas: &[DmaRecord]) -> bool
    ensures { result ≡ list_any (is_dma_before base) dmas.now }
{
    dmas.iter().any(|dma| is_early_dma(base, dma))
}

/// How many DMAs of the log for later no commit can use: if one comes before the base, all of them.
pub fn dmas_passed(tail: &Tail, later: &Log) -> u32
    requires { later.now ≡ log_that_follows tail.now }
    ensures { result ≡ dmas_that_pass tail.now }
{
    let parts = tail.parts();
    if has_early_dma(parts.base, parts.log.parts().dmas.as_slice()) {
        later.parts().dmas.len() as u32
    } else {
        0
    }
}

// ---- the end

/// Whether a size, a DMA or an interrupt of the tail isn't used, once so many interrupts are applied at the base and so much
/// of the log for later is used.
pub fn has_more_left(tail: &Tail, raised: u32, used: Used) -> bool
    requires { raised ≡ (raised_at tail.now).count }
    ensures { result ≡ has_more_unused tail.now used }
{
    let parts = tail.parts();
    let log = parts.log.parts();
    has_early_size(parts.threads.as_slice(), &log.sizes)
        || has_early_dma(parts.base, log.dmas.as_slice())
        || u64::from(raised) + u64::from(used.interrupts) < log.interrupts.len() as u64
}
