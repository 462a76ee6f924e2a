//! The lines of threads: each one, and what it saved if interrupts are masked.
ghost use Rattle.std.specs.Prelude.{◌≡◌, ◌<◌, ◌++◌, codes, decimal, flat_map, map, drop, length, OnOk};
ghost use Rattle.dl_account.specs.Lines.{hex_word, numbered, spaced};
ghost use Rattle.dl_account.specs.States.{mask_word, saved_line, status_word, thread_line, thread_lines};

use crate::text::Text;
use dl_entry::OutOfMemory;
use dl_thread::{Thread, ThreadStatus, Threads};

pub(crate) fn put_threads(text: &mut Text, threads: &Threads) -> Result<(), OutOfMemory>
    ensures { OnOk result (text.new ≡ text.old ++ numbered thread_lines 0 threads.now) }
{
    for number in 0..threads.len() {
        if let Some(thread) = threads.get(number) {
            put_thread(text, number, thread)?;
            put_saved(text, number, thread)?;
        }
    }
    Ok(())
}

// The line of a thread.
fn put_thread(text: &mut Text, number: u8, thread: &Thread) -> Result<(), OutOfMemory>
    ensures { OnOk result (text.new ≡ text.old ++ thread_line number thread.now) }
{
    put_thread_place(text, number, thread)?;
    put_status(text, thread.status())?;
    put_handler(text, thread)?;
    put_registers(text, thread.x())?;
    text.put(b"\n")
}

// Which thread it is, and where it is.
fn put_thread_place(text: &mut Text, number: u8, thread: &Thread) -> Result<(), OutOfMemory>
    ensures { OnOk result (text.new ≡
        text.old ++ codes "t" ++ spaced (decimal number) ++ spaced (hex_word thread.now.pc)) }
{
    text.put(b"t")?;
    text.put_number(u64::from(number))?;
    text.put_hex_word(thread.pc())
}

// Whether a thread is live, and if not, how it ended.
fn put_status(text: &mut Text, status: ThreadStatus) -> Result<(), OutOfMemory>
    ensures { OnOk result (text.new ≡ text.old ++ spaced (status_word status)) }
{
    match status {
        ThreadStatus::Live => text.put_word(b"live"),
        ThreadStatus::Ended(code) => {
            text.put_word(b"ended:")?;
            text.put_digits(u128::from(code))
        }
        ThreadStatus::Fault(cause) => {
            text.put_word(b"fault:")?;
            text.put_digits(u128::from(cause))
        }
    }
}

// Where interrupts are handled, and whether they are masked.
fn put_handler(text: &mut Text, thread: &Thread) -> Result<(), OutOfMemory>
    ensures { OnOk result (text.new ≡
        text.old ++ spaced (hex_word thread.now.handler) ++ spaced (mask_word thread.now.mask)) }
{
    text.put_hex_word(thread.handler())?;
    text.put_word(if thread.mask() { b"1" } else { b"0" })
}

// The registers except x0.
fn put_registers(text: &mut Text, registers: &[u32]) -> Result<(), OutOfMemory>
    requires { 0 < length registers.now }
    ensures { OnOk result (text.new ≡ text.old ++ flat_map spaced (map hex_word (drop 1 registers.now))) }
{
    put_words(text, &registers[1..])
}

fn put_words(text: &mut Text, words: &[u32]) -> Result<(), OutOfMemory>
    ensures { OnOk result (text.new ≡ text.old ++ flat_map spaced (map hex_word words.now)) }
{
    for word in words {
        text.put_hex_word(*word)?;
    }
    Ok(())
}

// The values that a thread saved, if interrupts are masked.
fn put_saved(text: &mut Text, number: u8, thread: &Thread) -> Result<(), OutOfMemory>
    ensures { OnOk result (text.new ≡ text.old ++ saved_line number thread.now) }
{
    if !thread.mask() {
        return Ok(());
    }
    text.put(b"h")?;
    text.put_number(u64::from(number))?;
    text.put_hex_word(thread.saved_pc())?;
    text.put_hex_word(thread.saved_a0())?;
    text.put_hex_word(thread.saved_a1())?;
    text.put(b"\n")
}
