//! Questions about a word: which commits stored to it, and when it changed. Logs, images and answers come from outside the code.
use super::{Case, come_out};
use spec_program::status::Status;
use std::test::Fail;

#[test]
fn questions_are_answered_byte_for_byte(rt: HostRuntime) -> Result<(), Fail> {
    come_out(&rt, rt.alloc(), CASES)
}

// Thread 1 stores 9 to the word at 256 in commit 2, after thread 0 has spawned it.
pub(super) const ROW: &[(&str, &[u8])] = &[
    (
        "a.elf",
        b"code: 00100893 02000513 00000613 00000073 10002283 00000893 00000073 00000013 00900313 10602023 00000893 \
          00000073",
    ),
    (
        "a.log",
        b"DLRN\x01\0\0\0d\0\0\0\x06\0\0\0\x06\0\0\0\0\x01\x10\x06\0\0\0\x03\0\0\0\x03\0\x02\0\0\0\0\0\0\0\0\0\
            \0\0\0\0\0\0\0\0",
    ),
];

// The first commit is shorter than its logged size.
pub(super) const DIVERGING: &[(&str, &[u8])] = &[
    ("a.elf", b"code: 00000893 00700513 00000073"),
    (
        "a.log",
        b"DLRN\x01\0\0\0d\0\0\0\x02\0\0\0\x02\0\0\0\0\x02\0\0\0\x03\0\0\0\0\0\0\0\0\0\0\0\0\0\0\0",
    ),
];

// The first commit stores twice to the word at 256; later ones leave it the same value.
const EQUAL: &[(&str, &[u8])] = &[
    (
        "a.elf",
        b"code: 00900293 10502023 10502023 10500023 10002023 10502023 10002023 00000893 00000073",
    ),
    (
        "a.log",
        b"DLRN\x01\0\0\0d\0\0\0\x05\0\0\0\x05\0\0\0\0\0\0\x05\0\0\0\x02\0\x01\0\x01\0\x01\0\x02\0\0\0\0\0\0\0\
            \0\0\0\0\0\0",
    ),
];

// A DMA of two bytes to the buffer at 256.
const DMA: &[(&str, &[u8])] = &[
    (
        "a.elf",
        b"code: 00800893 10000513 00400593 00000073 10402283 00000893 00000073",
    ),
    (
        "a.log",
        b"DLRN\x01\x02\0\0d\0\0\0\x05\0\0\0\0\0\0\0\0\0\0\0\0\0\0\0\0\0\0\0\x01\0\0\0\x02\0\0\0\x02\0AB",
    ),
];

// Two segments have bytes of the word at 256, and a byte is stored to it.
const UNALIGNED: &[(&str, &[u8])] = &[
    (
        "a.elf",
        b"\x7fELF\x01\x01\x01\0\0\0\0\0\0\0\0\0\x02\0\xf3\0\x01\0\0\0\0\0\0\x004\0\0\0\0\0\0\0\0\0\0\x004\0 \0\
            \x03\0\0\0\0\0\0\0\x01\0\0\0\x94\0\0\0\0\0\0\0\0\0\0\0\x14\0\0\0\x14\0\0\0\x07\0\0\0\x01\0\0\0\x01\0\
            \0\0\xa8\0\0\0\0\x01\0\0\0\x01\0\0\x02\0\0\0\x02\0\0\0\x07\0\0\0\x01\0\0\0\x01\0\0\0\xaa\0\0\0\x03\
            \x01\0\0\x03\x01\0\0\x01\0\0\0\x01\0\0\0\x07\0\0\0\x01\0\0\0\x83\"\0\x10\x13\x03\x10\0#\x01`\x10\x93\
            \x08\0\0s\0\0\0\x11\"D",
    ),
    (
        "a.log",
        b"DLRN\x01\0\0\0d\0\0\0\x02\0\0\0\x02\0\0\0\0\x02\0\0\0\x04\0\0\0\0\0\0\0\0\0\0\0\0\0\0\0",
    ),
];

const CASES: &[Case] = &[
    Case {
        words: &["watch", "a.elf", "4096", "a.log", "256"],
        read: ROW,
        status: Status::Done,
        said: b"w 2 1 00000009\n",
        written: &[],
    },
    Case {
        words: &["who", "a.elf", "4096", "a.log", "256", "3"],
        read: ROW,
        status: Status::Done,
        said: b"w 2 1 00000009\n",
        written: &[],
    },
    Case {
        words: &["who", "a.elf", "4096", "a.log", "256", "2"],
        read: ROW,
        status: Status::Done,
        said: b"none\n",
        written: &[],
    },
    Case {
        words: &["when", "a.elf", "4096", "a.log", "256", "0"],
        read: ROW,
        status: Status::Done,
        said: b"w 2 1 00000009\n",
        written: &[],
    },
    Case {
        words: &["when", "a.elf", "4096", "a.log", "256", "1"],
        read: ROW,
        status: Status::Done,
        said: b"start\n",
        written: &[],
    },
    Case {
        words: &["when", "a.elf", "4096", "a.log", "260", "0"],
        read: ROW,
        status: Status::Done,
        said: b"none\n",
        written: &[],
    },
    Case {
        words: &["watch", "a.elf", "4096", "a.log", "256"],
        read: DIVERGING,
        status: Status::Diverged,
        said: b"none\ndiverged 0 2 3 2\n",
        written: &[],
    },
    Case {
        words: &["when", "a.elf", "4096", "a.log", "0", "0"],
        read: DIVERGING,
        status: Status::Diverged,
        said: b"start\ndiverged 0 2 3 2\n",
        written: &[],
    },
    Case {
        words: &["watch", "a.elf", "4096", "a.log", "256"],
        read: EQUAL,
        status: Status::Done,
        said: b"w 0 0 00000009\nw 1 0 00000009\nw 2 0 00000009\nw 3 0 00000000\nw 4 0 00000000\n",
        written: &[],
    },
    Case {
        words: &["who", "a.elf", "4096", "a.log", "256", "3"],
        read: EQUAL,
        status: Status::Done,
        said: b"w 2 0 00000009\n",
        written: &[],
    },
    Case {
        words: &["watch", "a.elf", "4096", "a.log", "256"],
        read: DMA,
        status: Status::Done,
        said: b"w 2 63 00000002\n",
        written: &[],
    },
    Case {
        words: &["watch", "a.elf", "4096", "a.log", "260"],
        read: DMA,
        status: Status::Done,
        said: b"w 2 63 00004241\n",
        written: &[],
    },
    Case {
        words: &["when", "a.elf", "4096", "a.log", "256", "1140859409"],
        read: UNALIGNED,
        status: Status::Done,
        said: b"w 0 0 44012211\n",
        written: &[],
    },
    Case {
        words: &["watch", "a.elf", "4096", "a.log", "4096"],
        read: ROW,
        status: Status::Usage,
        said: b"usage\n",
        written: &[],
    },
];
