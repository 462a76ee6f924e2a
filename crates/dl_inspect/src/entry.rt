//! The lines of the entries in a log's sections.
ghost use Rattle.std.specs.Prelude.{◌≡◌, ℕ, List, ◌++◌, flat_map, OnOk};
ghost use Rattle.dl_account.specs.Lines.{spaced};
ghost use Rattle.dl_inspect.specs.Inspection.{bytes_word, dma_line, input_line, interrupt_line};

use dl_account::Text;
use dl_entry::{Input, OutOfMemory};
use spec_log::{DmaRecord, Interrupt};

/// What has a line.
pub(crate) trait Entry {
    ghost shown: { Self → List ℕ };

    fn put(&self, text: &mut Text) -> Result<(), OutOfMemory>
        ensures { OnOk result (text.new ≡ text.old ++ shown self.now) };
}

// The lines of entries, in their order.
pub(crate) fn put_entries<E: Entry>(text: &mut Text, entries: &[E]) -> Result<(), OutOfMemory>
    ensures { OnOk result (text.new ≡ text.old ++ flat_map E.shown entries.now) }
{
    for entry in entries {
        entry.put(text)?;
    }
    Ok(())
}

impl Entry for Interrupt {
    ghost shown = { interrupt_line };

    fn put(&self, text: &mut Text) -> Result<(), OutOfMemory> {
        text.put(b"i")?;
        text.put_number(u64::from(self.thread))?;
        text.put_number(u64::from(self.index))?;
        text.put_hex_word(self.value)?;
        text.put(b"\n")
    }
}

impl Entry for Input {
    ghost shown = { input_line };

    fn put(&self, text: &mut Text) -> Result<(), OutOfMemory> {
        text.put(b"n")?;
        text.put_number(u64::from(self.kind))?;
        text.put_hex_word(self.result)?;
        put_bytes(text, self.bytes.as_slice())?;
        text.put(b"\n")
    }
}

impl Entry for DmaRecord {
    ghost shown = { dma_line };

    fn put(&self, text: &mut Text) -> Result<(), OutOfMemory> {
        text.put(b"d")?;
        text.put_number(u64::from(self.position))?;
        put_bytes(text, self.bytes.as_slice())?;
        text.put(b"\n")
    }
}

// A field that is bytes; no bytes are written as `-`.
fn put_bytes(text: &mut Text, bytes: &[u8]) -> Result<(), OutOfMemory>
    ensures { OnOk result (text.new ≡ text.old ++ spaced (bytes_word bytes.now)) }
{
    if bytes.is_empty() {
        return text.put_word(b"-");
    }
    text.put_hex_bytes(bytes)
}
