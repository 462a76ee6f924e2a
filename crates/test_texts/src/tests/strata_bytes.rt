//! The bytes of strata, and bytes that aren't strata.
use super::log_bytes::overwritten;
use dl_logfmt::{Fault, write_log};
use dl_strata::{StrataError, canonical_log, read_strata, write_strata};
use std::alloc::Global;
use std::test::Fail;

#[test]
fn strata_are_read_and_written_back(rt: HostRuntime) -> Result<(), Fail> {
    for bytes in STRATA {
        let strata = read_strata(rt.alloc(), bytes)?;
        assert!(rt; write_strata(rt.alloc(), &strata)?.as_slice() == *bytes);
    }
    Ok(())
}

#[test]
fn cut_strata_end_inside_a_field(rt: HostRuntime) {
    for bytes in STRATA {
        for length in 0..bytes.len() {
            let short = Some(malformed(1, length as u64));
            assert!(rt; read_strata(rt.alloc(), &bytes[..length]).err() == short);
        }
    }
}

#[test]
fn the_first_wrong_field_is_named(rt: HostRuntime) -> Result<(), Fail> {
    for (bytes, at, wrong, number, offset) in WRONG {
        let bytes = overwritten(rt.alloc(), bytes, *at, wrong)?;
        let error = Some(malformed(*number, *offset));
        assert!(rt; read_strata(rt.alloc(), &bytes).err() == error, "{at}");
    }
    Ok(())
}

#[test]
fn the_stratum_with_too_many_commits_is_named(rt: HostRuntime) -> Result<(), Fail> {
    // A stratum of 63 threads has at most 16,065 commits, so 1,044 of them have 27,756 fewer than 2^24.
    let bytes = full_strata(rt.alloc(), 1046)?;
    let error = malformed(5, 16 + 1044 * 64);
    assert!(rt; read_strata(rt.alloc(), &bytes).err() == Some(error));
    Ok(())
}

#[test]
fn strata_stand_for_a_log(rt: HostRuntime) -> Result<(), Fail> {
    let log = canonical_log(rt.alloc(), &read_strata(rt.alloc(), SHORT)?)?;
    assert!(rt; write_log(rt.alloc(), &log)?.as_slice() == SHORT_LOG);
    Ok(())
}

/// A header and so many strata, in each of which 63 threads have 255 commits.
fn full_strata(alloc: Global, count: u32) -> Result<Vec<u8>, Fail> {
    let mut bytes = Vec::new(alloc);
    bytes.extend_from_slice(b"DLRS\x01\x3F\x3F\x00\x64\x00\x00\x00")?;
    bytes.extend_from_slice(&count.to_le_bytes())?;
    for _ in 0..count {
        bytes.push(0)?;
        bytes.extend_from_slice(&[255; 63])?;
    }
    Ok(bytes)
}

fn malformed(number: u8, offset: u64) -> StrataError {
    StrataError::Malformed(Fault { number, offset })
}

/// The header, the runs, the sizes, the interrupts, the inputs and the DMAs of each.
const STRATA: &[&[u8]] = &[SHORT, ONE_THREAD, FULL];

/// Two threads, whose chunks are in one stratum.
const SHORT: &[u8] = b"\x44\x4C\x52\x53\x01\x02\x0F\x00\x64\x00\x00\x00\x05\x00\x00\x00\
  \x00\x00\x01\x01\x00\x00\x01\x01\x01\x00\x01\x01\
  \x03\x00\x00\x00\
  \x00\x00\x00\x00\x00\x03\x00\x00\x00\
  \x00\x02\x00\x00\x00\x02\x00\x00\x00\
  \x01\x00\x00\x00\x00\x03\x00\x00\x00\
  \x00\x00\x00\x00\
  \x00\x00\x00\x00\
  \x00\x00\x00\x00";

/// Their log: a chunk of thread 1, a serial step of thread 0, a chunk of each, and a serial step of each.
const SHORT_LOG: &[u8] = b"\x44\x4C\x52\x4E\x02\x01\x0F\x00\x64\x00\x00\x00\x06\x00\x00\x00\
  \x06\x00\x00\x00\x01\x00\x00\x01\x00\x01\
  \x03\x00\x00\x00\
  \x00\x00\x00\x00\x00\x03\x00\x00\x00\
  \x00\x02\x00\x00\x00\x02\x00\x00\x00\
  \x01\x00\x00\x00\x00\x03\x00\x00\x00\
  \x00\x00\x00\x00\
  \x00\x00\x00\x00\
  \x00\x00\x00\x00";

/// 300 chunks of one thread.
const ONE_THREAD: &[u8] = b"\x44\x4C\x52\x53\x01\x01\x0F\x00\x10\x00\x00\x00\x02\x00\x00\x00\
  \x00\xFF\x00\x2D\
  \x00\x00\x00\x00\
  \x00\x00\x00\x00\
  \x00\x00\x00\x00\
  \x00\x00\x00\x00";

/// 63 threads, of which three commit, and entries in each section.
const FULL: &[u8] = b"\x44\x4C\x52\x53\x01\x3F\x3F\x00\x00\x00\x01\x00\x03\x00\x00\x00\
  \x01\x3E\x02\
  \x00\x01\xFF\x00\x00\x00\x00\x00\x00\x00\x00\x00\x00\x00\x00\x00\x00\x00\x00\x00\x00\x00\
  \x00\x00\x00\x00\x00\x00\x00\x00\x00\x00\x00\x00\x00\x00\x00\x00\x00\x00\x00\x00\x00\
  \x00\x00\x00\x00\x00\x00\x00\x00\x00\x00\x00\x00\x00\x00\x00\x00\x00\x00\x00\x00\x00\
  \x02\x00\x00\x00\
  \x00\x05\x00\x00\x00\x01\x00\x00\x00\
  \x3E\x00\x00\x00\x00\x00\x00\x01\x00\
  \x01\x00\x00\x00\
  \x3E\x01\x00\x00\x00\x05\x00\x00\x00\
  \x01\x00\x00\x00\
  \x03\x02\x00\x00\x00\x02\x00\x93\x08\
  \x01\x00\x00\x00\
  \x00\x01\x00\x00\x01\x00\x41";

/// Strata, other bytes from an offset on, and the number and the offset of their fault.
const WRONG: &[(&[u8], usize, &[u8], u8, u64)] = &[
    // The magic word and the version.
    (SHORT, 3, b"N", 2, 0),
    (SHORT, 4, &[2], 3, 4),
    // The threads that are counted: none, 64, and more than the sphere may have; and 16 that it may have.
    (SHORT, 5, &[0], 5, 5),
    (FULL, 5, &[64], 5, 5),
    (FULL, 5, &[16, 15], 5, 6),
    (SHORT, 6, &[16], 5, 6),
    // The standard chunk size.
    (SHORT, 8, &[15], 5, 8),
    (SHORT, 8, &[1, 0, 1], 5, 8),
    // The number of strata has no range of its own.
    (SHORT, 12, &[255, 255, 255, 255, 1, 2], 5, 17),
    // No kind of stratum, chunks without a count, and a thread that isn't counted.
    (SHORT, 16, &[3], 5, 16),
    (SHORT, 18, &[0], 5, 16),
    (SHORT, 20, &[2], 5, 20),
    // A size of thread 2, one of 0 and one over the standard size; a size that comes again.
    (SHORT, 32, &[2], 5, 32),
    (SHORT, 37, &[0], 5, 37),
    (SHORT, 37, &[101], 5, 37),
    (SHORT, 42, &[0], 6, 41),
    // An interrupt of thread 2, an input of no kind, and a byte after the last section.
    (SHORT, 59, &[1, 0, 0, 0, 2], 5, 63),
    (SHORT, 63, &[1, 0, 0, 0, 9], 5, 67),
    (SHORT, 71, &[0], 7, 71),
];
