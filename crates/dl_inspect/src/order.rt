//! The lines of an order's entries.
ghost use Rattle.std.specs.Prelude.{◌≡◌, ◌++◌, length, OnOk};
ghost use Rattle.std.specs.List.{zip};
ghost use Rattle.spec_log.specs.Log.{IsLog};
ghost use Rattle.dl_account.specs.Lines.{numbered};
ghost use Rattle.dl_inspect.specs.Inspection.{each_of, order_lines, sized_line, unsized_line};

use dl_account::Text;
use dl_entry::{Actor, OutOfMemory};
use spec_log::{LogParts, ModeName, Sizes};

// The actors of commits by position, in order-size with their sizes.
#[tactic(auto, using(crate::proofs::Sized::each_is_sized))]
pub(crate) fn put_order(text: &mut Text, parts: &LogParts) -> Result<(), OutOfMemory>
    requires { IsLog parts.now }
    ensures { OnOk result (text.new ≡ text.old ++ order_lines parts.now.mode parts.now.order parts.now.sizes) }
{
    let order = parts.order.as_slice();
    match parts.mode {
        ModeName::OrderSize => put_sized(text, order, each_of(&parts.sizes)),
        ModeName::OrderOnly => put_unsized(text, order),
        ModeName::Picolog => Ok(()),
    }
}

fn each_of(sizes: &Sizes) -> &[u32]
    ensures { result.now ≡ each_of sizes.now }
{
    match sizes {
        Sizes::Each(sizes) => sizes.as_slice(),
        Sizes::Short(_) => &[],
    }
}

fn put_sized(text: &mut Text, order: &[Actor], sizes: &[u32]) -> Result<(), OutOfMemory>
    requires { length sizes.now ≡ length order.now }
    ensures { OnOk result (text.new ≡ text.old ++ numbered sized_line 0 (zip order.now sizes.now)) }
{
    for (position, actor) in order.iter().enumerate() {
        put_sized_entry(text, position, *actor, sizes[position])?;
    }
    Ok(())
}

fn put_sized_entry(
    text: &mut Text,
    position: usize,
    actor: Actor,
    size: u32,
) -> Result<(), OutOfMemory>
    ensures { OnOk result (text.new ≡ text.old ++ sized_line position (actor, size)) }
{
    text.put(b"p")?;
    text.put_number(position as u64)?;
    text.put_number(u64::from(actor.code()))?;
    text.put_number(u64::from(size))?;
    text.put(b"\n")
}

fn put_unsized(text: &mut Text, order: &[Actor]) -> Result<(), OutOfMemory>
    ensures { OnOk result (text.new ≡ text.old ++ numbered unsized_line 0 order.now) }
{
    for (position, actor) in order.iter().enumerate() {
        put_unsized_entry(text, position, *actor)?;
    }
    Ok(())
}

fn put_unsized_entry(text: &mut Text, position: usize, actor: Actor) -> Result<(), OutOfMemory>
    ensures { OnOk result (text.new ≡ text.old ++ unsized_line position actor) }
{
    text.put(b"p")?;
    text.put_number(position as u64)?;
    text.put_number(u64::from(actor.code()))?;
    text.put(b" -\n")
}
