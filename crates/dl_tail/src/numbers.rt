//! Numbers of a tail's bytes that are zero or multiples of 4.
ghost use Rattle.std.specs.Prelude.{◌≡◌, ◌≢◌, IfErr};
ghost use Rattle.spec_log.specs.Fields.{field};
ghost use Rattle.spec_tail.specs.Reading.{is_aligned as is_multiple, zeros};
ghost use Rattle.dl_logfmt.specs.Answer.{Answers};

use dl_logfmt::{FIELD, LogError, judge, read_u8, read_u16, read_u32};

/// A zero byte.
pub fn read_zero_u8(bytes: &[u8], at: &mut usize) -> Result<u8, LogError>
    ensures value { Answers (zeros 1 bytes.now at.old) result at.new }
    ensures no_memory { IfErr result (λ e. e ≢ LogError.OutOfMemory) }
{
    let start = *at;
    let zero = read_u8(bytes, at)?;
    judge(zero == 0, FIELD, start)?;
    Ok(zero)
}

/// Two zero bytes.
pub fn read_zero_u16(bytes: &[u8], at: &mut usize) -> Result<u16, LogError>
    ensures value { Answers (zeros 2 bytes.now at.old) result at.new }
    ensures no_memory { IfErr result (λ e. e ≢ LogError.OutOfMemory) }
{
    let start = *at;
    let zero = read_u16(bytes, at)?;
    judge(zero == 0, FIELD, start)?;
    Ok(zero)
}

/// Four zero bytes.
pub fn read_zero_u32(bytes: &[u8], at: &mut usize) -> Result<u32, LogError>
    ensures value { Answers (zeros 4 bytes.now at.old) result at.new }
    ensures no_memory { IfErr result (λ e. e ≢ LogError.OutOfMemory) }
{
    let start = *at;
    let zero = read_u32(bytes, at)?;
    judge(zero == 0, FIELD, start)?;
    Ok(zero)
}

/// A multiple of 4.
pub fn read_aligned(bytes: &[u8], at: &mut usize) -> Result<u32, LogError>
    ensures value { Answers (field 4 is_multiple bytes.now at.old) result at.new }
    ensures no_memory { IfErr result (λ e. e ≢ LogError.OutOfMemory) }
{
    let start = *at;
    let address = read_u32(bytes, at)?;
    judge(is_aligned(address), FIELD, start)?;
    Ok(address)
}

pub fn is_aligned(address: u32) -> bool
    ensures { result ≡ is_multiple address }
{
    address % 4 == 0
}
