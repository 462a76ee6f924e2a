//! Why a replay left its log, as texts say it.
ghost use Rattle.std.specs.Prelude.{◌≡◌, ◌++◌, IfOk, OnOk, flat_map};
ghost use Rattle.dl_account.specs.Lines.{spaced};
ghost use Rattle.dl_account.specs.Replays.{diverged_fields, why_fields};

use crate::text::Text;
use dl_entry::{OutOfMemory, Why};
use std::alloc::Global;

// The fields of a replay that left its log: where, and why.
pub(crate) fn put_diverged(text: &mut Text, index: u32, why: Why) -> Result<(), OutOfMemory>
    ensures { OnOk result (text.new ≡ text.old ++ flat_map spaced (diverged_fields index why)) }
{
    text.put_count(b"diverged", index)?;
    put_why(text, why)
}

/// The fields of a reason, each after a space: its number, and the sizes that belong to it.
pub fn why_text(alloc: Global, why: Why) -> Result<Vec<u8>, OutOfMemory>
    ensures { IfOk result (λ text. text.items ≡ flat_map spaced (why_fields why)) }
{
    let mut text = Text::new(alloc);
    put_why(&mut text, why)?;
    Ok(text.into_bytes())
}

// The same, in a text.
fn put_why(text: &mut Text, why: Why) -> Result<(), OutOfMemory>
    ensures { OnOk result (text.new ≡ text.old ++ flat_map spaced (why_fields why)) }
{
    match why {
        Why::NoThread => text.put_number(1),
        Why::Short(logged, found) => {
            text.put_number(2)?;
            text.put_number(u64::from(logged))?;
            text.put_number(u64::from(found))
        }
        Why::NotSerial => text.put_number(3),
        Why::Input => text.put_number(4),
        Why::Interrupt => text.put_number(5),
        Why::Dma => text.put_number(6),
        Why::SizeOfSerial(logged) => {
            text.put_number(7)?;
            text.put_number(u64::from(logged))
        }
        Why::LeftOver => text.put_number(8),
    }
}
