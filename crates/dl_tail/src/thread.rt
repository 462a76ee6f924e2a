//! A thread of a tail.
ghost use Rattle.std.specs.Prelude.{◌≡◌, ◌≢◌, ◌&&◌, true, [], IfErr};
ghost use Rattle.spec_log.specs.Fields.{any, field, at_most, one_more, repeated};
ghost use Rattle.spec_tail.specs.Reading.{is_aligned as is_multiple, is_code as is_code_of, is_saved as is_saved_under, registers};
ghost use Rattle.spec_tail.specs.Reading.{status as status_in, thread, thread_parts};
ghost use Rattle.dl_logfmt.specs.Answer.{Answers};

use crate::numbers::{is_aligned, read_aligned, read_zero_u16};
use dl_logfmt::{FIELD, LogError, judge, read_u8, read_u32};
use spec_isa::thread::{Parts, ThreadStatus};

/// Reads a thread that has at most the commits before the base.
pub fn read_thread(bytes: &[u8], at: &mut usize, base: u32) -> Result<Parts, LogError>
    ensures value { Answers (thread base bytes.now at.old) result at.new }
    ensures no_memory { IfErr result (λ e. e ≢ LogError.OutOfMemory) }
{
    let kind = read_kind(bytes, at)?;
    let mask = read_mask(bytes, at)?;
    read_zero_u16(bytes, at)?;
    let code = read_code(bytes, at, kind)?;
    read_parts(bytes, at, base, mask, status_of(kind, code))
}

/// What comes after the status and the mask.
fn read_parts(
    bytes: &[u8],
    at: &mut usize,
    base: u32,
    mask: u8,
    status: ThreadStatus,
) -> Result<Parts, LogError>
    ensures value { Answers (thread_parts base mask status bytes.now at.old) result at.new }
    ensures no_memory { IfErr result (λ e. e ≢ LogError.OutOfMemory) }
{
    let pc = read_aligned(bytes, at)?;
    let handler = read_aligned(bytes, at)?;
    let saved_pc = read_saved_pc(bytes, at, mask)?;
    let saved_a0 = read_saved(bytes, at, mask)?;
    let saved_a1 = read_saved(bytes, at, mask)?;
    let commits = read_commits(bytes, at, base)?;
    let x = read_registers(bytes, at)?;
    Ok(Parts {
        pc,
        x,
        reservation: None,
        handler,
        mask: mask == 1,
        saved_pc,
        saved_a0,
        saved_a1,
        status,
        commits,
    })
}

/// Whether it lives, or how it stopped.
fn read_kind(bytes: &[u8], at: &mut usize) -> Result<u8, LogError>
    ensures value { Answers (field 1 (at_most 2) bytes.now at.old) result at.new }
    ensures no_memory { IfErr result (λ e. e ≢ LogError.OutOfMemory) }
{
    let start = *at;
    let kind = read_u8(bytes, at)?;
    judge(kind <= 2, FIELD, start)?;
    Ok(kind)
}

fn read_mask(bytes: &[u8], at: &mut usize) -> Result<u8, LogError>
    ensures value { Answers (field 1 (at_most 1) bytes.now at.old) result at.new }
    ensures no_memory { IfErr result (λ e. e ≢ LogError.OutOfMemory) }
{
    let start = *at;
    let mask = read_u8(bytes, at)?;
    judge(mask <= 1, FIELD, start)?;
    Ok(mask)
}

/// The code with which it ended, or the cause of its fault.
fn read_code(bytes: &[u8], at: &mut usize, kind: u8) -> Result<u32, LogError>
    ensures value { Answers (field 4 (is_code_of kind) bytes.now at.old) result at.new }
    ensures no_memory { IfErr result (λ e. e ≢ LogError.OutOfMemory) }
{
    let start = *at;
    let code = read_u32(bytes, at)?;
    judge(is_code(kind, code), FIELD, start)?;
    Ok(code)
}

fn is_code(kind: u8, code: u32) -> bool
    ensures { result ≡ is_code_of kind code }
{
    match kind {
        0 => code == 0,
        1 => true,
        _ => code <= 7,
    }
}

fn status_of(kind: u8, code: u32) -> ThreadStatus
    requires { is_code_of kind code ≡ true }
    ensures { result ≡ status_in kind code }
{
    match kind {
        0 => ThreadStatus::Live,
        1 => ThreadStatus::Ended(code),
        _ => ThreadStatus::Fault(code as u8),
    }
}

/// The saved pc.
fn read_saved_pc(bytes: &[u8], at: &mut usize, mask: u8) -> Result<u32, LogError>
    ensures value { Answers (field 4 (λ x. is_multiple x && is_saved_under mask x) bytes.now at.old) result at.new }
    ensures no_memory { IfErr result (λ e. e ≢ LogError.OutOfMemory) }
{
    let start = *at;
    let value = read_u32(bytes, at)?;
    judge(is_aligned(value) && is_saved(mask, value), FIELD, start)?;
    Ok(value)
}

/// A saved value.
fn read_saved(bytes: &[u8], at: &mut usize, mask: u8) -> Result<u32, LogError>
    ensures value { Answers (field 4 (is_saved_under mask) bytes.now at.old) result at.new }
    ensures no_memory { IfErr result (λ e. e ≢ LogError.OutOfMemory) }
{
    let start = *at;
    let value = read_u32(bytes, at)?;
    judge(is_saved(mask, value), FIELD, start)?;
    Ok(value)
}

/// Whether a value may be saved under this mask.
fn is_saved(mask: u8, value: u32) -> bool
    ensures { result ≡ is_saved_under mask value }
{
    mask == 1 || value == 0
}

fn read_commits(bytes: &[u8], at: &mut usize, base: u32) -> Result<u32, LogError>
    ensures value { Answers (field 4 (at_most base) bytes.now at.old) result at.new }
    ensures no_memory { IfErr result (λ e. e ≢ LogError.OutOfMemory) }
{
    let start = *at;
    let commits = read_u32(bytes, at)?;
    judge(commits <= base, FIELD, start)?;
    Ok(commits)
}

/// The registers, of which the first isn't there.
fn read_registers(bytes: &[u8], at: &mut usize) -> Result<[u32; 32], LogError>
    ensures value { Answers (registers bytes.now at.old) result at.new }
    ensures no_memory { IfErr result (λ e. e ≢ LogError.OutOfMemory) }
{
    let words = read_words(bytes, at)?;
    let mut x = [0; 32];
    x[1..].copy_from_slice(&words);
    Ok(x)
}

fn read_words(bytes: &[u8], at: &mut usize) -> Result<[u32; 31], LogError>
    ensures value { Answers (repeated (one_more (λ x y. true) (any 4)) 31 [] bytes.now at.old) result at.new }
    ensures no_memory { IfErr result (λ e. e ≢ LogError.OutOfMemory) }
{
    let mut words = [0; 31];
    for number in 0..31 {
        words[number] = read_u32(bytes, at)?;
    }
    Ok(words)
}
