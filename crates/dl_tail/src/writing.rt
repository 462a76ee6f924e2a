//! A tail written as bytes.
ghost use Rattle.std.specs.Prelude.{◌≡◌, ◌%◌, ◌^◌, ◌≤◌, ◌++◌, [], ◌∷◌, length, take, drop, IfOk, OnOk};
ghost use Rattle.std.specs.List.{flat_map};
ghost use Rattle.spec_log.specs.Bytes.{section, u8 as one, u16 as two, u32 as four};
ghost use Rattle.spec_tail.specs.Bytes.{end_code as end_code_of, header_bytes, last_code as last_code_of};
ghost use Rattle.spec_tail.specs.Bytes.{mask_code as mask_code_of, request_bytes, row_bytes, rows_of};
ghost use Rattle.spec_tail.specs.Bytes.{status_code as status_code_of, tail_bytes, thread_bytes};
ghost use Rattle.spec_tail.specs.Tails.{IsTail};
ghost use Rattle.dl_tail.specs.Rows.{filled, first_bytes};
ghost use Rattle.dl_tail.specs.Values.{value_of};

use crate::header::NO_THREAD;
use crate::puts::{put_u8, put_u16, put_u32};
use crate::rows::{ROW, is_empty};
use crate::tail::{Tail, TailParts};
use dl_entry::{OutOfMemory, Request};
use dl_logfmt::write_log;
use spec_isa::thread::{Parts, ThreadStatus};
use std::alloc::Global;

/// The bytes of a tail.
pub fn write_tail(alloc: Global, tail: &Tail) -> Result<Vec<u8>, OutOfMemory>
    ensures { IfOk result (λ bytes. bytes.items ≡ tail_bytes tail.now) }
{
    let parts = tail.parts();
    let mut out = Vec::new(alloc);
    put_header(parts, &mut out)?;
    put_threads(parts.threads.as_slice(), &mut out)?;
    put_memory(parts.memory.as_slice(), &mut out)?;
    let log = write_log(alloc, &parts.log)?;
    out.extend_from_slice(&log)?;
    Ok(out)
}

// ---- the header

fn put_header(parts: &TailParts, out: &mut Vec<u8>) -> Result<(), OutOfMemory>
    requires { IsTail (value_of parts.now) }
    ensures { OnOk result (out.new.items ≡ out.old.items ++ header_bytes (value_of parts.now)) }
{
    out.extend_from_slice(b"DLRT\x01\x00")?;
    put_u16(parts.threads.len() as u16, out)?;
    put_u32(parts.base, out)?;
    put_rest(parts, out)
}

/// The last parts of the header.
fn put_rest(parts: &TailParts, out: &mut Vec<u8>) -> Result<(), OutOfMemory>
    requires { IsTail (value_of parts.now) }
    ensures { OnOk result (out.new.items ≡ out.old.items
        ++ (one (last_code_of parts.now.last) ++ request_bytes parts.now.request ++ four (length parts.now.memory))) }
{
    put_u8(last_code(parts.last), out)?;
    put_request(parts.request, out)?;
    put_u32(parts.memory.len() as u32, out)
}

/// The thread that committed last, as a byte.
fn last_code(last: Option<u8>) -> u8
    ensures { result ≡ last_code_of last }
{
    match last {
        Some(thread) => thread,
        None => NO_THREAD,
    }
}

fn put_request(request: Option<Request>, out: &mut Vec<u8>) -> Result<(), OutOfMemory>
    ensures { OnOk result (out.new.items ≡ out.old.items ++ request_bytes request) }
{
    match request {
        Some(request) => put_asked(1, request.buf, request.len, out),
        None => put_asked(0, 0, 0, out),
    }
}

/// Whether there is a request, two zero bytes, and the two numbers of the request.
fn put_asked(flag: u8, buf: u32, len: u32, out: &mut Vec<u8>) -> Result<(), OutOfMemory>
    ensures { OnOk result (out.new.items ≡ out.old.items ++ (one flag ++ two 0 ++ four buf ++ four len)) }
{
    put_u8(flag, out)?;
    put_u16(0, out)?;
    put_u32(buf, out)?;
    put_u32(len, out)
}

// ---- threads

fn put_threads(threads: &[Parts], out: &mut Vec<u8>) -> Result<(), OutOfMemory>
    ensures { OnOk result (out.new.items ≡ out.old.items ++ flat_map thread_bytes threads.now) }
{
    for thread in threads {
        put_thread(thread, out)?;
    }
    Ok(())
}

fn put_thread(thread: &Parts, out: &mut Vec<u8>) -> Result<(), OutOfMemory>
    ensures { OnOk result (out.new.items ≡ out.old.items ++ thread_bytes thread.now) }
{
    put_status(thread, out)?;
    put_fields(thread, out)?;
    put_registers(thread, out)
}

/// The numbers of 32 bits except the registers.
fn put_fields(thread: &Parts, out: &mut Vec<u8>) -> Result<(), OutOfMemory>
    ensures { let p = thread.now in OnOk result (out.new.items ≡ out.old.items
        ++ flat_map four (end_code_of p.status ∷ p.pc ∷ p.handler ∷ p.saved_pc ∷ p.saved_a0 ∷ p.saved_a1 ∷ p.commits ∷ [])) }
{
    let words = [
        end_code(thread.status),
        thread.pc,
        thread.handler,
        thread.saved_pc,
        thread.saved_a0,
        thread.saved_a1,
        thread.commits,
    ];
    put_words(&words, out)
}

/// The registers from the first on.
fn put_registers(thread: &Parts, out: &mut Vec<u8>) -> Result<(), OutOfMemory>
    ensures { OnOk result (out.new.items ≡ out.old.items ++ flat_map four (drop 1 thread.now.x)) }
{
    let (_, registers) = thread.x.as_slice().split_at(1);
    put_words(registers, out)
}

/// Whether it lives or how it stopped, whether it handles an interrupt, and two zero bytes.
fn put_status(thread: &Parts, out: &mut Vec<u8>) -> Result<(), OutOfMemory>
    ensures { OnOk result (out.new.items
        ≡ out.old.items ++ (one (status_code_of thread.now.status) ++ one (mask_code_of thread.now.mask) ++ two 0)) }
{
    put_u8(status_code(thread.status), out)?;
    put_u8(mask_code(thread.mask), out)?;
    put_u16(0, out)
}

fn mask_code(mask: bool) -> u8
    ensures { result ≡ mask_code_of mask }
{
    if mask { 1 } else { 0 }
}

fn status_code(status: ThreadStatus) -> u8
    ensures { result ≡ status_code_of status }
{
    match status {
        ThreadStatus::Live => 0,
        ThreadStatus::Ended(_) => 1,
        ThreadStatus::Fault(_) => 2,
    }
}

/// The code with which a thread ended, or the cause of its fault.
fn end_code(status: ThreadStatus) -> u32
    ensures { result ≡ end_code_of status }
{
    match status {
        ThreadStatus::Live => 0,
        ThreadStatus::Ended(code) => code,
        ThreadStatus::Fault(cause) => u32::from(cause),
    }
}

fn put_words(words: &[u32], out: &mut Vec<u8>) -> Result<(), OutOfMemory>
    ensures { OnOk result (out.new.items ≡ out.old.items ++ flat_map four words.now) }
{
    for word in words {
        put_u32(*word, out)?;
    }
    Ok(())
}

// ---- the memory

/// The rows that aren't empty, after their number.
fn put_memory(memory: &[u8], out: &mut Vec<u8>) -> Result<(), OutOfMemory>
    requires pages { length memory.now % 4096 ≡ 0 }
    requires few { length memory.now ≤ 2 ^ 24 }
    ensures { OnOk result (out.new.items ≡ out.old.items ++ section row_bytes (rows_of memory.now)) }
{
    put_u32(count_rows(memory), out)?;
    put_rows(memory, out)
}

/// How many rows aren't empty.
fn count_rows(memory: &[u8]) -> u32
    requires pages { length memory.now % 4096 ≡ 0 }
    requires few { length memory.now ≤ 2 ^ 24 }
    ensures { result ≡ length (rows_of memory.now) }
{
    let mut count = 0;
    let mut rest = memory;
    while ROW <= rest.len() {
        count += filled_rows(first_row(rest));
        rest = next_rows(rest);
    }
    count
}

fn first_row(memory: &[u8]) -> &[u8]
    requires { 32 ≤ length memory.now }
    ensures { result.now ≡ take 32 memory.now }
{
    &memory[..ROW]
}

fn next_rows(memory: &[u8]) -> &[u8]
    requires { 32 ≤ length memory.now }
    ensures { result.now ≡ drop 32 memory.now }
{
    let (_, rest) = memory.split_at(ROW);
    rest
}

/// How many of the one row of these bytes aren't empty.
fn filled_rows(bytes: &[u8]) -> u32
    ensures { result ≡ filled bytes.now }
{
    if is_empty(bytes) { 0 } else { 1 }
}

fn put_rows(memory: &[u8], out: &mut Vec<u8>) -> Result<(), OutOfMemory>
    requires pages { length memory.now % 4096 ≡ 0 }
    requires few { length memory.now ≤ 2 ^ 24 }
    ensures { OnOk result (out.new.items ≡ out.old.items ++ flat_map row_bytes (rows_of memory.now)) }
{
    let mut number = 0;
    let mut rest = memory;
    while ROW <= rest.len() {
        put_row(number, first_row(rest), out)?;
        rest = next_rows(rest);
        number += 1;
    }
    Ok(())
}

/// A row, unless it is empty.
fn put_row(number: u32, bytes: &[u8], out: &mut Vec<u8>) -> Result<(), OutOfMemory>
    ensures { OnOk result (out.new.items ≡ out.old.items ++ first_bytes number bytes.now) }
{
    if is_empty(bytes) {
        return Ok(());
    }
    put_u32(number, out)?;
    out.extend_from_slice(bytes)?;
    Ok(())
}
