//! Copies of logs.
ghost use Rattle.std.specs.Prelude.{◌≡◌, IfOk};

use dl_entry::{Bytes, Input, OutOfMemory, Sequence};
use spec_log::{DmaRecord, Log, LogParts, Order, Sizes};
use std::alloc::Global;

/// The same log again.
pub fn copy_log(alloc: Global, log: &Log) -> Result<Log, OutOfMemory>
    ensures { IfOk result (λ copy. copy ≡ log.now) }
{
    Ok(Log::new(copy_parts(alloc, log.parts())?))
}

/// The same parts again.
pub(crate) fn copy_parts(alloc: Global, parts: &LogParts) -> Result<LogParts, OutOfMemory>
    ensures { IfOk result (λ copy. copy ≡ parts.now) }
{
    Ok(LogParts {
        version: parts.version,
        threads: parts.threads,
        mode: parts.mode,
        s: parts.s,
        count: parts.count,
        order: Order::from_slice(alloc, parts.order.as_slice())?,
        sizes: copy_sizes(alloc, &parts.sizes)?,
        interrupts: Sequence::from_slice(alloc, parts.interrupts.as_slice())?,
        inputs: copy_inputs(alloc, parts.inputs.as_slice())?,
        dmas: copy_dmas(alloc, parts.dmas.as_slice())?,
    })
}

fn copy_sizes(alloc: Global, sizes: &Sizes) -> Result<Sizes, OutOfMemory>
    ensures { IfOk result (λ copy. copy ≡ sizes.now) }
{
    match sizes {
        Sizes::Each(sizes) => Ok(Sizes::Each(Sequence::from_slice(alloc, sizes.as_slice())?)),
        Sizes::Short(sizes) => Ok(Sizes::Short(Sequence::from_slice(alloc, sizes.as_slice())?)),
    }
}

/// The same inputs again.
pub fn copy_inputs(alloc: Global, inputs: &[Input]) -> Result<Sequence<Input>, OutOfMemory>
    ensures { IfOk result (λ copy. copy ≡ inputs.now) }
{
    let mut copy = Sequence::new(alloc);
    for input in inputs {
        copy.push(Input {
            kind: input.kind,
            result: input.result,
            bytes: Bytes::from_slice(alloc, input.bytes.as_slice())?,
        })?;
    }
    Ok(copy)
}

/// The same records of DMAs again.
pub fn copy_dmas(alloc: Global, dmas: &[DmaRecord]) -> Result<Sequence<DmaRecord>, OutOfMemory>
    ensures { IfOk result (λ copy. copy ≡ dmas.now) }
{
    let mut copy = Sequence::new(alloc);
    for dma in dmas {
        copy.push(DmaRecord {
            position: dma.position,
            bytes: Bytes::from_slice(alloc, dma.bytes.as_slice())?,
        })?;
    }
    Ok(copy)
}
