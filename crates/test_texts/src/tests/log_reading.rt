//! Worked logs, read in pieces, and bytes that aren't a log.
use super::log_bytes::malformed;
use super::logs::rejoined;
use dl_logfmt::LogReader;
use std::test::Fail;

#[test]
fn pieces_give_the_log_of_their_bytes(rt: HostRuntime) -> Result<(), Fail> {
    for bytes in &[EXITS, FULL] {
        for size in &[1, 7, 4096] {
            assert!(rt; rejoined(rt.alloc(), bytes, *size)?.as_slice() == *bytes);
        }
    }
    Ok(())
}

#[test]
fn cut_logs_are_refused_at_their_end_alone(rt: HostRuntime) {
    for length in 0..FULL.len() {
        let mut reader = LogReader::new(rt.alloc());
        assert!(rt; reader.feed(&FULL[..length]) == Ok(()));
        assert!(rt; reader.end().err() == Some(malformed(1, length as u64)));
    }
}

#[test]
fn faults_stay_whatever_follows(rt: HostRuntime) {
    for (bytes, number, offset) in WRONG {
        let error = malformed(*number, *offset);
        let mut reader = LogReader::new(rt.alloc());
        for piece in &[*bytes, &[], EXITS] {
            assert!(rt; reader.feed(piece) == Err(error));
        }
        assert!(rt; reader.end().err() == Some(error));
    }
}

/// A thread runs two instructions and exits.
const EXITS: &[u8] = b"\x44\x4C\x52\x4E\x01\x00\x00\x00\x64\x00\x00\x00\x02\x00\x00\x00\
  \x02\x00\x00\x00\x00\
  \x02\x00\x00\x00\x02\x00\x00\x00\
  \x00\x00\x00\x00\
  \x00\x00\x00\x00\
  \x00\x00\x00\x00";

/// Entries in each section.
const FULL: &[u8] = b"\x44\x4C\x52\x4E\x01\x01\x00\x00\x00\x10\x00\x00\x03\x00\x00\x00\
  \x03\x00\x00\x00\xFE\x00\
  \x02\x00\x00\x00\x00\x04\x03\x02\x01\x00\x10\x0E\x00\x00\x00\x00\x01\x00\
  \x02\x00\x00\x00\x03\x07\x00\x00\x00\xFF\xFF\xFF\xFF\x03\x08\x00\x00\x00\x00\x00\x00\x00\
  \x02\x00\x00\x00\x03\x02\x00\x00\x00\x02\x00\x93\x08\x11\x00\x00\x00\x00\x00\x00\
  \x02\x00\x00\x00\x01\x00\x00\x00\x02\x00\x41\xFF\x02\x00\x00\x00\x00\x00";

/// Bytes with the number and the offset of their fault: another version, a header that claims too many commits,
/// and a byte after the log.
const WRONG: &[(&[u8], u8, u64)] = &[
    (b"\x44\x4C\x52\x4E\x03", 3, 4),
    (
        b"\x44\x4C\x52\x4E\x01\x00\x00\x00\x64\x00\x00\x00\x01\x00\x00\x01",
        5,
        12,
    ),
    (
        b"\x44\x4C\x52\x4E\x01\x02\x00\x00\x64\x00\x00\x00\x02\x00\x00\x00\
          \x00\x00\x00\x00\
          \x00\x00\x00\x00\
          \x00\x00\x00\x00\
          \x00\x00\x00\x00\
          \x00\x00\x00\x00\
          \x00",
        7,
        36,
    ),
];
