//! The lines of a memory: its rows of 32 bytes that are not all zero.
ghost use Rattle.std.specs.Prelude.{◌≡◌, ◌*◌, ◌^◌, ◌<◌, ◌++◌, OnOk};
ghost use Rattle.dl_account.specs.Lines.{numbered};
ghost use Rattle.dl_account.specs.States.{is_zero, row_line, rows};

use crate::text::Text;
use dl_entry::OutOfMemory;
use dl_mem::Memory;

pub(crate) fn put_memory(text: &mut Text, memory: &Memory) -> Result<(), OutOfMemory>
    ensures { OnOk result (text.new ≡ text.old ++ numbered row_line 0 (rows memory.now)) }
{
    let mut row = [0; 32];
    for number in 0..memory.size() / 32 {
        memory.copy_to(32 * number, &mut row);
        put_row(text, number, &row)?;
    }
    Ok(())
}

// The row of that number, unless it is all zero.
fn put_row(text: &mut Text, number: u32, row: &[u8; 32]) -> Result<(), OutOfMemory>
    requires { 32 * number < 2 ^ 32 }
    ensures { OnOk result (text.new ≡ text.old ++ row_line number row.now) }
{
    if is_zero(row) {
        return Ok(());
    }
    text.put(b"m")?;
    text.put_hex_word(32 * number)?;
    text.put_hex_bytes(row)?;
    text.put(b"\n")
}

fn is_zero(row: &[u8; 32]) -> bool
    ensures { result ≡ is_zero row.now }
{
    row.iter().all(|byte| *byte == 0)
}
