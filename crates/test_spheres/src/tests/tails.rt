//! Tails, walked from their bases.
use dl_entry::{End, Why};
use dl_serial::{Commit, WalkEnd, walk_tail};
use dl_tail::read_tail;
use dl_thread::Thread;
use std::test::Fail;

/// The bytes of a tail; the sizes of the commits that its walk does; and of thread 0 then how many commits it has done since the
/// recording's start, and whether its interrupts are masked.
struct Row {
    tail: &'static [u8],
    sizes: &'static [u32],
    end: End,
    commits: u32,
    mask: bool,
}

#[test]
fn tails_are_walked_from_their_bases(rt: HostRuntime) -> Result<(), Fail> {
    for row in ROWS {
        let tail = read_tail(rt.alloc(), row.tail)?;
        let walked = walk_tail(rt.alloc(), &tail);
        drop(tail);
        let walked = walked?;
        assert!(rt; has_sizes(walked.commits.as_slice(), row.sizes));
        assert!(rt; walked.stores.is_empty());
        assert!(rt; walked.end == WalkEnd::Ended(row.end));
        assert!(rt; has_done(walked.state.threads.get(0), row.commits, row.mask));
        drop(walked);
    }
    Ok(())
}

fn has_sizes(commits: &[Commit], sizes: &[u32]) -> bool {
    commits.len() == sizes.len() && commits.iter().zip(sizes).all(|(c, size)| c.size == *size)
}

fn has_done(thread: Option<&Thread>, commits: u32, mask: bool) -> bool {
    match thread {
        Some(thread) => thread.commits() == commits && thread.mask() == mask,
        None => false,
    }
}

// A DMA is outstanding at the base, and threads take turns.
const REQUESTED: &[u8] =
    b"DLRT\x01\0\x01\0\x03\0\0\0\0\x01\0\0\0\x01\0\0\x04\0\0\0\0\x10\0\0\0\0\0\0\0\0\0\0\x18\0\0\0\0\0\0\0\0\0\0\
      \0\0\0\0\0\0\0\0\0\x03\0\0\0\0\0\0\0\0\0\0\0\0\0\0\0\0\0\0\0\0\0\0\0\0\0\0\0\0\0\0\0\0\0\0\0\0\0\0\0\0\0\0\
      \0\x04\0\0\0\0\0\0\0\0\0\0\0\0\0\0\0\0\0\0\0\0\0\0\0\x05\0\0\0\0\0\0\0\0\0\0\0\0\0\0\0\0\0\0\0\0\0\0\0\0\0\
      \0\0\0\0\0\0\0\0\0\0\0\0\0\0\0\0\0\0\0\0\0\0\0\0\0\0\0\0\0\0\0\0\0\0\x03\0\0\0\0\0\0\0\x93\x08\x80\0\x13\
      \x05\0\x10\x93\x05@\0s\0\0\0# \xb0 \x93\x08P\0s\0\0\0\x83\"@\x10\x01\0\0\0\x93\x08\0\0s\0\0\0\0\0\0\0\0\0\
      \0\0\0\0\0\0\0\0\0\0\0\0\0\0\0\0\0\0\x10\0\0\0\x04\0\0\0\0\0\0\0\0\0\0\0\0\0\0\0\0\0\0\0\0\0\0\0\0\0\0\0\0\
      \0\0\0DLRN\x02\x02?\0d\0\0\0\x04\0\0\0\0\0\0\0\0\0\0\0\0\0\0\0\x01\0\0\0\x05\x13\0\0\0\0\0\x01\0\0\0\x03\0\
      \0\0\x02\0AB";

// The same, but the log has a DMA before the base, so that this one is never used.
const PASSED: &[u8] =
    b"DLRT\x01\0\x01\0\x03\0\0\0\0\x01\0\0\0\x01\0\0\x04\0\0\0\0\x10\0\0\0\0\0\0\0\0\0\0\x18\0\0\0\0\0\0\0\0\0\0\
      \0\0\0\0\0\0\0\0\0\x03\0\0\0\0\0\0\0\0\0\0\0\0\0\0\0\0\0\0\0\0\0\0\0\0\0\0\0\0\0\0\0\0\0\0\0\0\0\0\0\0\0\0\
      \0\x04\0\0\0\0\0\0\0\0\0\0\0\0\0\0\0\0\0\0\0\0\0\0\0\x05\0\0\0\0\0\0\0\0\0\0\0\0\0\0\0\0\0\0\0\0\0\0\0\0\0\
      \0\0\0\0\0\0\0\0\0\0\0\0\0\0\0\0\0\0\0\0\0\0\0\0\0\0\0\0\0\0\0\0\0\0\x03\0\0\0\0\0\0\0\x93\x08\x80\0\x13\
      \x05\0\x10\x93\x05@\0s\0\0\0# \xb0 \x93\x08P\0s\0\0\0\x83\"@\x10\x01\0\0\0\x93\x08\0\0s\0\0\0\0\0\0\0\0\0\
      \0\0\0\0\0\0\0\0\0\0\0\0\0\0\0\0\0\0\x10\0\0\0\x04\0\0\0\0\0\0\0\0\0\0\0\0\0\0\0\0\0\0\0\0\0\0\0\0\0\0\0\0\
      \0\0\0DLRN\x02\x02?\0d\0\0\0\x04\0\0\0\0\0\0\0\0\0\0\0\0\0\0\0\x01\0\0\0\x05\x13\0\0\0\0\0\x02\0\0\0\x02\0\
      \0\0\x01\0Z\x03\0\0\0\x02\0AB";

// An interrupt is logged for the commits that the thread has at the base, and no commit follows.
const RAISED: &[u8] =
    b"DLRT\x01\0\x01\0\x02\0\0\0\0\0\0\0\0\0\0\0\0\0\0\0\0\x10\0\0\0\0\0\0\0\0\0\0\x0c\0\0\0\x14\0\0\0\0\0\0\0\0\
      \0\0\0\0\0\0\0\x02\0\0\0\0\0\0\0\0\0\0\0\0\0\0\0\0\0\0\0\0\0\0\0\0\0\0\0\0\0\0\0\0\0\0\0\0\0\0\0\0\0\0\0\0\
      \0\0\0\0\0\0\0\0\0\0\0\0\0\0\0\0\0\0\0\0\0\0\0\x06\0\0\0\0\0\0\0\0\0\0\0\0\0\0\0\0\0\0\0\0\0\0\0\0\0\0\0\0\
      \0\0\0\0\0\0\0\0\0\0\0\0\0\0\0\0\0\0\0\0\0\0\0\0\0\0\0\0\0\0\0\x01\0\0\0\0\0\0\0\x93\x08`\0\x13\x05@\x01s\
      \0\0\0o\0\0\0\x13\0\0\0o\0\0\0\0\0\0\0\0\0\0\0DLRN\x02\0?\0d\0\0\0\0\0\0\0\0\0\0\0\0\0\0\0\x01\0\0\0\0\x02\
      \0\0\0\x05\0\0\0\0\0\0\0\0\0\0\0";

const ROWS: &[Row] = &[
    Row {
        tail: REQUESTED,
        sizes: &[0, 0, 2, 0],
        end: End::Complete(7),
        commits: 6,
        mask: false,
    },
    Row {
        tail: PASSED,
        sizes: &[],
        end: End::Diverged(3, Why::Dma),
        commits: 3,
        mask: false,
    },
    Row {
        tail: RAISED,
        sizes: &[],
        end: End::Complete(2),
        commits: 2,
        mask: true,
    },
];
