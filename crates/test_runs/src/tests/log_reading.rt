//! A log that is read in pieces of any size, whole and cut off.
use dl_logfmt::{Log, LogError, LogReader, read_log, write_log};
use std::alloc::Global;
use std::test::Fail;

const DMA_LOG: &[u8] =
    b"DLRN\x01\x02\0\0d\0\0\0\x05\0\0\0\0\0\0\0\0\0\0\0\0\0\0\0\0\0\0\0\x01\0\0\0\x02\0\0\0\x02\0AB";

// A log that is cut off anywhere says the same in pieces of any size as it says at once.
#[test]
fn cut_logs_say_in_pieces_what_they_say_at_once(rt: HostRuntime) {
    for length in 0..DMA_LOG.len() {
        for size in &[1, 7, 4096] {
            let is_same = says_the_same(rt.alloc(), &DMA_LOG[..length], *size);
            assert!(rt; is_same, "{length}");
        }
    }
}

fn says_the_same(alloc: Global, bytes: &[u8], size: usize) -> bool {
    fed(alloc, bytes, size).err() == read_log(alloc, bytes).err()
}

fn fed(alloc: Global, bytes: &[u8], size: usize) -> Result<Log, LogError> {
    let mut reader = LogReader::new(alloc);
    for piece in bytes.chunks(size.max(1)) {
        reader.feed(piece)?;
    }
    reader.end()
}

// A log whose third commit is a DMA, fed a byte at a time, is the log of its bytes.
#[test]
fn bytes_one_by_one_give_the_log(rt: HostRuntime) -> Result<(), Fail> {
    let log = fed(rt.alloc(), DMA_LOG, 1)?;
    assert!(rt; write_log(rt.alloc(), &log)?.as_slice() == DMA_LOG);
    Ok(())
}
