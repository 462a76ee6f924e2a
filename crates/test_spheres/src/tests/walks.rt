//! Worked logs, walked on their images.
use dl_entry::{Actor, End, Why};
use dl_logfmt::read_log;
use dl_mem::Memory;
use dl_query::{When, watch, when, who};
use dl_serial::{Commit, Store, WalkEnd, Walked, walk};
use dl_thread::Thread;
use std::alloc::Global;
use std::test::Fail;

// A file that exits: `addi x17, x0, 0`, `addi x10, x0, 7`, `ecall`.
pub(super) const EXIT: &[u8] = &[
    0x7f, 0x45, 0x4c, 0x46, 0x01, 0x01, 0x01, 0x00, 0x00, 0x00, 0x00, 0x00, 0x00, 0x00, 0x00, 0x00,
    0x02, 0x00, 0xf3, 0x00, 0x01, 0x00, 0x00, 0x00, 0x00, 0x00, 0x00, 0x00, 0x34, 0x00, 0x00, 0x00,
    0x00, 0x00, 0x00, 0x00, 0x00, 0x00, 0x00, 0x00, 0x34, 0x00, 0x20, 0x00, 0x01, 0x00, 0x00, 0x00,
    0x00, 0x00, 0x00, 0x00, 0x01, 0x00, 0x00, 0x00, 0x54, 0x00, 0x00, 0x00, 0x00, 0x00, 0x00, 0x00,
    0x00, 0x00, 0x00, 0x00, 0x0c, 0x00, 0x00, 0x00, 0x0c, 0x00, 0x00, 0x00, 0x07, 0x00, 0x00, 0x00,
    0x04, 0x00, 0x00, 0x00, 0x93, 0x08, 0x00, 0x00, 0x13, 0x05, 0x70, 0x00, 0x73, 0x00, 0x00, 0x00,
];

// A file that asks for a DMA of 4 bytes to the buffer at 256, loads what came, and exits.
const DMA: &[u8] = &[
    0x7f, 0x45, 0x4c, 0x46, 0x01, 0x01, 0x01, 0x00, 0x00, 0x00, 0x00, 0x00, 0x00, 0x00, 0x00, 0x00,
    0x02, 0x00, 0xf3, 0x00, 0x01, 0x00, 0x00, 0x00, 0x00, 0x00, 0x00, 0x00, 0x34, 0x00, 0x00, 0x00,
    0x00, 0x00, 0x00, 0x00, 0x00, 0x00, 0x00, 0x00, 0x34, 0x00, 0x20, 0x00, 0x01, 0x00, 0x00, 0x00,
    0x00, 0x00, 0x00, 0x00, 0x01, 0x00, 0x00, 0x00, 0x54, 0x00, 0x00, 0x00, 0x00, 0x00, 0x00, 0x00,
    0x00, 0x00, 0x00, 0x00, 0x1c, 0x00, 0x00, 0x00, 0x1c, 0x00, 0x00, 0x00, 0x07, 0x00, 0x00, 0x00,
    0x04, 0x00, 0x00, 0x00, 0x93, 0x08, 0x80, 0x00, 0x13, 0x05, 0x00, 0x10, 0x93, 0x05, 0x40, 0x00,
    0x73, 0x00, 0x00, 0x00, 0x83, 0x22, 0x40, 0x10, 0x93, 0x08, 0x00, 0x00, 0x73, 0x00, 0x00, 0x00,
];

/// The bytes of a file and of its log, the number of commits that is asked for, and the sizes of those done.
struct Row {
    file: &'static [u8],
    log: &'static [u8],
    to: u32,
    sizes: &'static [u32],
    end: WalkEnd,
}

#[test]
fn walks_end_where_their_logs_say(rt: HostRuntime) -> Result<(), Fail> {
    for row in ROWS {
        let walked = walked(rt.alloc(), row.file, row.log, row.to)?;
        assert!(rt; has_sizes(walked.commits.as_slice(), row.sizes));
        assert!(rt; walked.end == row.end);
        drop(walked);
    }
    Ok(())
}

#[test]
fn a_transfer_is_stored_and_loaded(rt: HostRuntime) -> Result<(), Fail> {
    let walked = walked(rt.alloc(), DMA, TRANSFERRED, 5)?;
    assert!(rt; has_stored(&walked.state.memory));
    assert!(rt; has_loaded(walked.state.threads.get(0)));
    assert!(rt; walked.state.request.is_none());
    let stores = [at_dma(256, 2), at_dma(260, 0x4241)];
    assert!(rt; walked.stores.as_slice() == stores.as_slice());
    assert!(rt; who(&walked, 260, 5).is_some());
    assert!(rt; when(&walked, 0, 264, 0) == When::None);
    let watched = watch(rt.alloc(), &walked, 256);
    drop(walked);
    assert!(rt; watched?.len() == 1);
    Ok(())
}

// A store of the DMA, which is commit 2.
fn at_dma(address: u32, value: u32) -> Store {
    Store {
        commit: 2,
        actor: Actor::Dma,
        address,
        value,
    }
}

fn has_stored(memory: &Memory) -> bool {
    if memory.size() != 4096 {
        return false;
    }
    let mut stored = [0; 6];
    memory.copy_to(256, &mut stored);
    stored == [2, 0, 0, 0, 0x41, 0x42]
}

fn has_loaded(thread: Option<&Thread>) -> bool {
    match thread {
        Some(thread) => thread.x()[5] == 0x4241,
        None => false,
    }
}

/// What a walk leaves in a memory of 4,096 bytes.
fn walked(alloc: Global, file: &[u8], log: &[u8], to: u32) -> Result<Walked, Fail> {
    let image = dl_elf::load(alloc, file, 4096)?;
    let log = read_log(alloc, log)?;
    let walked = walk(alloc, &image, &log, to);
    drop((image, log));
    Ok(walked?)
}

fn has_sizes(commits: &[Commit], sizes: &[u32]) -> bool {
    commits.len() == sizes.len() && commits.iter().zip(sizes).all(|(c, size)| c.size == *size)
}

// Logs: of `EXIT` as it was recorded, in order-size and in order-only; of `EXIT` with a longer chunk, with a thread that
// isn't there, and with a record that nothing takes; and of `DMA` in picolog.
const RECORDED: &[u8] = b"\x44\x4C\x52\x4E\x01\x00\x00\x00\x64\x00\x00\x00\x02\x00\x00\x00\
      \x02\x00\x00\x00\x00\x02\x00\x00\x00\x02\x00\x00\x00\x00\x00\x00\
      \x00\x00\x00\x00\x00\x00\x00\x00\x00";

const ORDER_ONLY: &[u8] = b"\x44\x4C\x52\x4E\x01\x01\x00\x00\x64\x00\x00\x00\x02\x00\x00\x00\
      \x02\x00\x00\x00\x00\x00\x00\x00\x00\x00\x00\x00\x00\x00\x00\x00\
      \x00\x00\x00\x00\x00";

const TOO_LONG: &[u8] = b"\x44\x4C\x52\x4E\x01\x00\x00\x00\x64\x00\x00\x00\x02\x00\x00\x00\
      \x02\x00\x00\x00\x00\x02\x00\x00\x00\x03\x00\x00\x00\x00\x00\x00\
      \x00\x00\x00\x00\x00\x00\x00\x00\x00";

const NO_THREAD: &[u8] = b"\x44\x4C\x52\x4E\x01\x00\x00\x00\x64\x00\x00\x00\x02\x00\x00\x00\
      \x02\x00\x00\x00\x05\x02\x00\x00\x00\x02\x00\x00\x00\x00\x00\x00\
      \x00\x00\x00\x00\x00\x00\x00\x00\x00";

pub(super) const LEFT_OVER: &[u8] =
    b"\x44\x4C\x52\x4E\x01\x00\x00\x00\x64\x00\x00\x00\x02\x00\x00\x00\
      \x02\x00\x00\x00\x00\x02\x00\x00\x00\x02\x00\x00\x00\x00\x00\x00\
      \x00\x01\x00\x00\x00\x05\x00\x00\x00\x00\x00\x00\x00\x00\x00\x00";

const TRANSFERRED: &[u8] = b"\x44\x4C\x52\x4E\x01\x02\x00\x00\x64\x00\x00\x00\x05\x00\x00\x00\
      \x00\x00\x00\x00\x00\x00\x00\x00\x00\x00\x00\x00\x00\x00\x00\x00\
      \x01\x00\x00\x00\x02\x00\x00\x00\x02\x00\x41\x42";

const ROWS: &[Row] = &[
    Row {
        file: EXIT,
        log: RECORDED,
        to: 0,
        sizes: &[],
        end: WalkEnd::Reached(0),
    },
    Row {
        file: EXIT,
        log: RECORDED,
        to: 1,
        sizes: &[2],
        end: WalkEnd::Reached(1),
    },
    Row {
        file: EXIT,
        log: RECORDED,
        to: 2,
        sizes: &[2, 0],
        end: WalkEnd::Ended(End::Complete(2)),
    },
    Row {
        file: EXIT,
        log: RECORDED,
        to: u32::MAX,
        sizes: &[2, 0],
        end: WalkEnd::Ended(End::Complete(2)),
    },
    Row {
        file: EXIT,
        log: ORDER_ONLY,
        to: 2,
        sizes: &[2, 0],
        end: WalkEnd::Ended(End::Complete(2)),
    },
    Row {
        file: EXIT,
        log: TOO_LONG,
        to: 0,
        sizes: &[],
        end: WalkEnd::Reached(0),
    },
    Row {
        file: EXIT,
        log: TOO_LONG,
        to: 2,
        sizes: &[],
        end: WalkEnd::Ended(End::Diverged(0, Why::Short(3, 2))),
    },
    Row {
        file: EXIT,
        log: NO_THREAD,
        to: 2,
        sizes: &[],
        end: WalkEnd::Ended(End::Diverged(0, Why::NoThread)),
    },
    Row {
        file: EXIT,
        log: LEFT_OVER,
        to: 1,
        sizes: &[2],
        end: WalkEnd::Reached(1),
    },
    Row {
        file: EXIT,
        log: LEFT_OVER,
        to: 2,
        sizes: &[2, 0],
        end: WalkEnd::Ended(End::Diverged(2, Why::LeftOver)),
    },
    Row {
        file: DMA,
        log: TRANSFERRED,
        to: 5,
        sizes: &[3, 0, 0, 2, 0],
        end: WalkEnd::Ended(End::Complete(5)),
    },
];
