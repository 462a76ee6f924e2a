//! Worked logs, written in pieces.
ghost use Rattle.std.specs.Prelude.{◌<◌, length};

use dl_logfmt::{Log, LogWriter, read_log};
use std::test::Fail;

#[test]
fn pieces_join_to_the_log(rt: HostRuntime) -> Result<(), Fail> {
    for bytes in LOGS {
        assert!(rt; writes_in_pieces(read_log(rt.alloc(), bytes)?, bytes));
    }
    Ok(())
}

// Whether pieces of 1, of 7 and of 4,096 bytes are these bytes.
fn writes_in_pieces(log: Log, bytes: &[u8]) -> bool {
    let all = writes(&log, bytes, &mut [0; 1])
        && writes(&log, bytes, &mut [0; 7])
        && writes(&log, bytes, &mut [0; 4096]);
    drop(log);
    all
}

// Whether the pieces that are written into this room are the bytes, and then there are no more.
fn writes(log: &Log, bytes: &[u8], room: &mut [u8]) -> bool
    requires { 0 < length room.old }
{
    let mut writer = LogWriter::new(log);
    for piece in bytes.chunks(room.len()) {
        let count = writer.next(room);
        if &room[..count] != piece {
            return false;
        }
    }
    writer.next(room) == 0
}

const LOGS: &[&[u8]] = &[
    // Each commit has its size: a thread runs two instructions and exits.
    b"\x44\x4C\x52\x4E\x01\x00\x00\x00\x64\x00\x00\x00\x02\x00\x00\x00\
      \x02\x00\x00\x00\x00\
      \x02\x00\x00\x00\x02\x00\x00\x00\
      \x00\x00\x00\x00\
      \x00\x00\x00\x00\
      \x00\x00\x00\x00",
    // No order, and a DMA as the third commit.
    b"\x44\x4C\x52\x4E\x01\x02\x00\x00\x64\x00\x00\x00\x05\x00\x00\x00\
      \x00\x00\x00\x00\
      \x00\x00\x00\x00\
      \x00\x00\x00\x00\
      \x00\x00\x00\x00\
      \x01\x00\x00\x00\x02\x00\x00\x00\x02\x00\x41\x42",
    // Entries in each section.
    b"\x44\x4C\x52\x4E\x01\x01\x00\x00\x00\x10\x00\x00\x03\x00\x00\x00\
      \x03\x00\x00\x00\xFE\x00\
      \x02\x00\x00\x00\x00\x04\x03\x02\x01\x00\x10\x0E\x00\x00\x00\x00\x01\x00\
      \x02\x00\x00\x00\x03\x07\x00\x00\x00\xFF\xFF\xFF\xFF\x03\x08\x00\x00\x00\x00\x00\x00\x00\
      \x02\x00\x00\x00\x03\x02\x00\x00\x00\x02\x00\x93\x08\x11\x00\x00\x00\x00\x00\x00\
      \x02\x00\x00\x00\x01\x00\x00\x00\x02\x00\x41\xFF\x02\x00\x00\x00\x00\x00",
];
