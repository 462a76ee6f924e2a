//! The text of a log.
ghost use Rattle.std.specs.Prelude.{◌≡◌, ◌++◌, OnOk, IfOk};
ghost use Rattle.dl_inspect.specs.Inspection.{head_line, inspection_of, mode_word, threads_lines};

use crate::entry::put_entries;
use crate::order::put_order;
use crate::sizes::put_sizes;
use dl_account::Text;
use dl_entry::OutOfMemory;
use spec_log::{Log, LogParts, ModeName};
use std::alloc::Global;

/// A log as text: a line for its header, in version 2 one for the number of its threads, and one for each entry of its order,
/// its sizes, its interrupts, its inputs and its DMAs.
pub fn inspect_text(alloc: Global, log: &Log) -> Result<Vec<u8>, OutOfMemory>
    ensures { IfOk result (λ text. text.items ≡ inspection_of log.now) }
{
    let parts = log.parts();
    let mut text = Text::new(alloc);
    put_head(&mut text, parts)?;
    put_threads(&mut text, parts)?;
    put_order(&mut text, parts)?;
    put_sizes(&mut text, parts)?;
    put_entries(&mut text, parts.interrupts.as_slice())?;
    put_entries(&mut text, parts.inputs.as_slice())?;
    put_entries(&mut text, parts.dmas.as_slice())?;
    Ok(text.into_bytes())
}

fn put_head(text: &mut Text, parts: &LogParts) -> Result<(), OutOfMemory>
    ensures { OnOk result (text.new ≡ text.old ++ head_line parts.now) }
{
    text.put(b"log")?;
    text.put_number(u64::from(parts.version))?;
    text.put_word(mode_word(parts.mode))?;
    text.put_number(u64::from(parts.s))?;
    text.put_number(u64::from(parts.count))?;
    text.put(b"\n")
}

fn put_threads(text: &mut Text, parts: &LogParts) -> Result<(), OutOfMemory>
    ensures { OnOk result (text.new ≡ text.old ++ threads_lines parts.now) }
{
    if parts.version == 1 {
        return Ok(());
    }
    text.put(b"threads")?;
    text.put_number(u64::from(parts.threads))?;
    text.put(b"\n")
}

fn mode_word(mode: ModeName) -> &'static [u8]
    ensures { result.now ≡ mode_word mode }
{
    match mode {
        ModeName::OrderSize => b"order-size",
        ModeName::OrderOnly => b"order-only",
        ModeName::Picolog => b"picolog",
    }
}
