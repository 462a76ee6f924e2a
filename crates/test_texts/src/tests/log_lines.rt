//! The texts of small logs, of each mode.
use super::logs::inspected;
use std::test::Fail;

#[test]
fn each_entry_has_a_line(rt: HostRuntime) -> Result<(), Fail> {
    for (bytes, text) in LOGS {
        assert!(rt; inspected(rt.alloc(), bytes)?.as_slice() == *text);
    }
    Ok(())
}

/// The header, the order, the sizes, the interrupts, the inputs and the DMAs of each, and its text: a DMA is 63.
const LOGS: &[(&[u8], &[u8])] = &[
    // Sizes are in the order's lines. There are two interrupts, an input with bytes and one without, and a DMA.
    (
        b"\x44\x4C\x52\x4E\x01\x00\x00\x00\x00\x10\x00\x00\x04\x00\x00\x00\
          \x04\x00\x00\x00\x0E\xEF\
          \x04\x00\x00\x00\x00\x10\x02\x00\x00\x00\x0A\x00\
          \x02\x00\x00\x00\x00\x00\x00\x00\x00\x07\x00\x00\x00\x0E\x01\x00\x00\x00\xEF\xBE\xAD\xDE\
          \x02\x00\x00\x00\x03\x02\x00\x00\x00\x02\x00\x93\x08\x11\x00\x00\x00\x00\x00\x00\
          \x01\x00\x00\x00\x02\x00\x00\x00\x02\x00\x41\x42",
        b"log 1 order-size 4096 4\n\
          p 0 14 4096\n\
          p 1 0 2\n\
          p 2 63 0\n\
          p 3 14 10\n\
          i 0 0 00000007\n\
          i 14 1 DEADBEEF\n\
          n 3 00000002 9308\n\
          n 17 00000000 -\n\
          d 2 4142\n",
    ),
    // The first chunk was closed after three instructions.
    (
        b"\x44\x4C\x52\x4E\x01\x01\x00\x00\x64\x00\x00\x00\x03\x00\x00\x00\
          \x03\x00\x00\x00\x00\x00\
          \x01\x00\x00\x00\x00\x00\x00\x00\x00\x03\x00\
          \x00\x00\x00\x00\
          \x00\x00\x00\x00\
          \x00\x00\x00\x00",
        b"log 1 order-only 100 3\n\
          p 0 0 -\n\
          p 1 0 -\n\
          p 2 0 -\n\
          z 0 0 3\n",
    ),
    // There is no order. One DMA has no bytes.
    (
        b"\x44\x4C\x52\x4E\x01\x02\x00\x00\x10\x00\x00\x00\x07\x00\x00\x00\
          \x00\x00\x00\x00\
          \x02\x00\x00\x00\x00\x02\x00\x00\x00\x08\x00\x01\x00\x00\x00\x00\x10\x00\
          \x00\x00\x00\x00\
          \x01\x00\x00\x00\x10\xFE\xCA\x00\x00\x00\x00\
          \x02\x00\x00\x00\x03\x00\x00\x00\x02\x00\x00\xFF\x05\x00\x00\x00\x00\x00",
        b"log 1 picolog 16 7\n\
          z 0 2 8\n\
          z 1 0 16\n\
          n 16 0000CAFE -\n\
          d 3 00FF\n\
          d 5 -\n",
    ),
    // Version 2, with sizes in the order's lines.
    (
        b"\x44\x4C\x52\x4E\x02\x00\x3F\x00\x64\x00\x00\x00\x02\x00\x00\x00\
          \x02\x00\x00\x00\x00\x00\
          \x02\x00\x00\x00\x02\x00\x00\x00\x00\x00\x00\x00\
          \x00\x00\x00\x00\
          \x00\x00\x00\x00\
          \x00\x00\x00\x00",
        b"log 2 order-size 100 2\n\
          threads 63\n\
          p 0 0 2\n\
          p 1 0 0\n",
    ),
    // Version 2, with the last thread, the longest chunk and a DMA.
    (
        b"\x44\x4C\x52\x4E\x02\x01\x3F\x00\x00\x00\x01\x00\x04\x00\x00\x00\
          \x04\x00\x00\x00\x00\x3E\x3F\x00\
          \x02\x00\x00\x00\x00\x01\x00\x00\x00\x00\x00\x01\x00\x3E\x00\x00\x00\x00\x01\x00\x00\x00\
          \x01\x00\x00\x00\x3E\x01\x00\x00\x00\x07\x00\x00\x00\
          \x00\x00\x00\x00\
          \x01\x00\x00\x00\x02\x00\x00\x00\x01\x00\x41",
        b"log 2 order-only 65536 4\n\
          threads 63\n\
          p 0 0 -\n\
          p 1 62 -\n\
          p 2 63 -\n\
          p 3 0 -\n\
          z 0 1 65536\n\
          z 62 0 1\n\
          i 62 1 00000007\n\
          d 2 41\n",
    ),
];
