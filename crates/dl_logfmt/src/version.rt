//! The versions of logs, side by side: each function has a case for 1 and one for 2. Only the order, when it is written, has
//! its cases beside the actors that are left.
ghost use Rattle.std.specs.Prelude.{◌≡◌, ◌≢◌, ◌+◌, ◌≤◌, ◌++◌, length, IfErr};
ghost use Rattle.dl_logfmt.specs.Answer.{Answers, Makes};
ghost use Rattle.dl_logfmt.specs.Parsing.{Extends};
ghost use Rattle.spec_log.specs.Bytes.{size_bytes};
ghost use Rattle.spec_log.specs.Fields.{any};
ghost use Rattle.spec_log.specs.Reading.{more_actors, order_len as len_of_order, thread_count};
ghost use Rattle.spec_log.specs.Versions.{by_version, most_standard as most_of, size_width};

use crate::error::LogError;
use crate::fields::{read_spare, read_thread_count};
use crate::fixed::Fixed;
use crate::numbers::{read_u16, read_u32};
use crate::order::{read_actor, read_halves};
use dl_entry::{MOST_CHUNK, MOST_CHUNK_V1, PLAIN_THREADS};
use spec_log::{Order, Shape};

/// How many threads the log may have.
pub fn read_threads(bytes: &[u8], at: &mut usize, version: u8) -> Result<u8, LogError>
    ensures value { Answers (thread_count version bytes.now at.old) result at.new }
    ensures no_memory { IfErr result (λ e. e ≢ LogError.OutOfMemory) }
{
    if version == 1 {
        read_spare(bytes, at)?;
        Ok(PLAIN_THREADS)
    } else {
        read_thread_count(bytes, at)
    }
}

/// What the log's bytes say of its threads.
pub fn threads_field(version: u8, threads: u8) -> u16
    ensures { result ≡ by_version version 0 threads }
{
    if version == 1 { 0 } else { u16::from(threads) }
}

/// The most instructions of a standard chunk.
pub fn most_standard(version: u8) -> u32
    ensures { result ≡ most_of version }
{
    if version == 1 {
        MOST_CHUNK_V1
    } else {
        MOST_CHUNK
    }
}

/// How many bytes an order of so many actors has.
pub fn order_len(version: u8, count: u32) -> u32
    ensures { result ≡ len_of_order version count }
{
    if version == 1 {
        count / 2 + count % 2
    } else {
        count
    }
}

/// Reads the next byte of an order of so many actors.
pub fn read_actors(
    order: &mut Order,
    bytes: &[u8],
    at: &mut usize,
    shape: Shape,
    count: u32,
) -> Result<(), LogError>
    ensures made { Makes (more_actors shape count order.old bytes.now at.old) result order.old order.new at.new }
    ensures grown { Extends order.old order.new }
{
    if shape.version == 1 {
        read_halves(order, bytes, at, count)
    } else {
        read_actor(order, bytes, at, shape.threads)
    }
}

/// The number of a size.
pub fn read_size(bytes: &[u8], at: &mut usize, version: u8) -> Result<u32, LogError>
    ensures value { Answers (any (size_width version) bytes.now at.old) result at.new }
    ensures no_memory { IfErr result (λ e. e ≢ LogError.OutOfMemory) }
{
    if version == 1 {
        Ok(u32::from(read_u16(bytes, at)?))
    } else {
        read_u32(bytes, at)
    }
}

/// The same number, as it is written.
pub fn put_size(fixed: &mut Fixed, version: u8, size: u32)
    requires room { length fixed.old + 4 ≤ 16 }
    requires small { size ≤ most_of version }
    ensures { fixed.new ≡ fixed.old ++ size_bytes version size }
{
    if version == 1 {
        fixed.put_u16(size as u16);
    } else {
        fixed.put_u32(size);
    }
}
