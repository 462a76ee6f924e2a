//! The lines of the sizes of commits that were closed early.
ghost use Rattle.std.specs.Prelude.{◌≡◌, ◌++◌, OnOk};
ghost use Rattle.dl_inspect.specs.Inspection.{short_of, size_line, size_lines};

use crate::entry::{Entry, put_entries};
use dl_account::Text;
use dl_entry::OutOfMemory;
use spec_log::{LogParts, ModeName, ShortSize, Sizes};

// In order-size there are none: the sizes are in the order's lines.
pub(crate) fn put_sizes(text: &mut Text, parts: &LogParts) -> Result<(), OutOfMemory>
    ensures { OnOk result (text.new ≡ text.old ++ size_lines parts.now.mode parts.now.sizes) }
{
    match parts.mode {
        ModeName::OrderSize => Ok(()),
        ModeName::OrderOnly | ModeName::Picolog => put_entries(text, short_of(&parts.sizes)),
    }
}

fn short_of(sizes: &Sizes) -> &[ShortSize]
    ensures { result.now ≡ short_of sizes.now }
{
    match sizes {
        Sizes::Each(_) => &[],
        Sizes::Short(sizes) => sizes.as_slice(),
    }
}

impl Entry for ShortSize {
    ghost shown = { size_line };

    fn put(&self, text: &mut Text) -> Result<(), OutOfMemory> {
        text.put(b"z")?;
        text.put_number(u64::from(self.thread))?;
        text.put_number(u64::from(self.index))?;
        text.put_number(u64::from(self.size))?;
        text.put(b"\n")
    }
}
