//! The commands that don't run a plan, each with every file that is read, what is said and every byte that is to be written.
//! They come from outside the code.
use super::{Case, come_out};
use spec_program::status::Status;
use std::test::Fail;

#[test]
fn tools_say_and_write_byte_for_byte(rt: HostRuntime) -> Result<(), Fail> {
    come_out(&rt, rt.alloc(), CASES)
}

const CASES: &[Case] = &[
    OVERFLOWED_LOG,
    BYTE_TOO_MANY,
    TOO_FEW_BYTES,
    NO_LOG,
    LOG_THAT_FITS,
    SIZE_OF_3,
    NO_SUCH_THREAD,
    INPUT_TOO_MANY,
    BAD_IMAGE,
    BOTH_ARE_READ,
    GENERATED_IMAGE,
    DRILL,
    THREE_INSTRUCTIONS,
    NO_LINE,
    OUT_OF_RANGE,
];

pub(super) const OVERFLOWED_LOG: Case = Case {
    words: &["inspect", "l.log"],
    read: &[(
        "l.log",
        b"DLRN\x01\x01\0\0d\0\0\0\x03\0\0\0\x03\0\0\0\0\0\x01\0\0\0\0\0\0\0\0\x03\0\0\0\0\0\0\0\0\0\0\0\0\0",
    )],
    status: Status::Done,
    said: b"log 1 order-only 100 3\np 0 0 -\np 1 0 -\np 2 0 -\nz 0 0 3\n",
    written: &[],
};

const BYTE_TOO_MANY: Case = Case {
    words: &["inspect", "l.log"],
    read: &[(
        "l.log",
        b"DLRN\x01\0\0\0d\0\0\0\x02\0\0\0\x02\0\0\0\0\x02\0\0\0\x02\0\0\0\0\0\0\0\0\0\0\0\0\0\0\0\0",
    )],
    status: Status::Grammar,
    said: b"refused log 0 7 41\n",
    written: &[],
};

const TOO_FEW_BYTES: Case = Case {
    words: &["inspect", "l.log"],
    read: &[("l.log", b"DLRN\x01\0\0\0d\0\0\0\x02\0\0\0")],
    status: Status::Grammar,
    said: b"refused log 0 1 16\n",
    written: &[],
};

const NO_LOG: Case = Case {
    words: &["inspect", "l.log"],
    read: &[],
    status: Status::Absent,
    said: b"absent l.log\n",
    written: &[],
};

pub(super) const LOG_THAT_FITS: Case = Case {
    words: &["walk", "a.elf", "4096", "a.log"],
    read: &[
        (
            "a.elf",
            b"\x7fELF\x01\x01\x01\0\0\0\0\0\0\0\0\0\x02\0\xf3\0\x01\0\0\0\0\0\0\04\0\0\0\0\0\0\0\0\0\0\04\0 \0\x01\0\
              \0\0\0\0\0\0\x01\0\0\0T\0\0\0\0\0\0\0\0\0\0\0\x0c\0\0\0\x0c\0\0\0\x07\0\0\0\x04\0\0\0\x93\x08\0\0\x13\
              \x05p\0s\0\0\0",
        ),
        (
            "a.log",
            b"DLRN\x01\0\0\0d\0\0\0\x02\0\0\0\x02\0\0\0\0\x02\0\0\0\x02\0\0\0\0\0\0\0\0\0\0\0\0\0\0\0",
        ),
    ],
    status: Status::Done,
    said: b"c 0 0 2\n\
      c 1 0 0\n\
      t 0 0000000C ended:7 00000000 0 00000000 00000000 00000000 00000000 00000000 00000000 00000000 00000000 \
      00000000 00000007 00000000 00000000 00000000 00000000 00000000 00000000 00000000 00000000 00000000 00000000 \
      00000000 00000000 00000000 00000000 00000000 00000000 00000000 00000000 00000000 00000000 00000000\n\
      m 00000000 9308000013057000730000000000000000000000000000000000000000000000\n\
      end complete 2\n",
    written: &[],
};

const SIZE_OF_3: Case = Case {
    words: &["walk", "a.elf", "4096", "a.log"],
    read: &[
        (
            "a.elf",
            b"\x7fELF\x01\x01\x01\0\0\0\0\0\0\0\0\0\x02\0\xf3\0\x01\0\0\0\0\0\0\04\0\0\0\0\0\0\0\0\0\0\04\0 \0\x01\0\
              \0\0\0\0\0\0\x01\0\0\0T\0\0\0\0\0\0\0\0\0\0\0\x0c\0\0\0\x0c\0\0\0\x07\0\0\0\x04\0\0\0\x93\x08\0\0\x13\
              \x05p\0s\0\0\0",
        ),
        (
            "a.log",
            b"DLRN\x01\0\0\0d\0\0\0\x02\0\0\0\x02\0\0\0\0\x02\0\0\0\x03\0\0\0\0\0\0\0\0\0\0\0\0\0\0\0",
        ),
    ],
    status: Status::Diverged,
    said: b"end diverged 0 2 3 2\n",
    written: &[],
};

const NO_SUCH_THREAD: Case = Case {
    words: &["walk", "a.elf", "4096", "a.log"],
    read: &[
        (
            "a.elf",
            b"\x7fELF\x01\x01\x01\0\0\0\0\0\0\0\0\0\x02\0\xf3\0\x01\0\0\0\0\0\0\04\0\0\0\0\0\0\0\0\0\0\04\0 \0\x01\0\
              \0\0\0\0\0\0\x01\0\0\0T\0\0\0\0\0\0\0\0\0\0\0\x0c\0\0\0\x0c\0\0\0\x07\0\0\0\x04\0\0\0\x93\x08\0\0\x13\
              \x05p\0s\0\0\0",
        ),
        (
            "a.log",
            b"DLRN\x01\0\0\0d\0\0\0\x02\0\0\0\x02\0\0\0\x05\x02\0\0\0\x02\0\0\0\0\0\0\0\0\0\0\0\0\0\0\0",
        ),
    ],
    status: Status::Diverged,
    said: b"end diverged 0 1\n",
    written: &[],
};

const INPUT_TOO_MANY: Case = Case {
    words: &["walk", "a.elf", "4096", "a.log"],
    read: &[
        (
            "a.elf",
            b"\x7fELF\x01\x01\x01\0\0\0\0\0\0\0\0\0\x02\0\xf3\0\x01\0\0\0\0\0\0\04\0\0\0\0\0\0\0\0\0\0\04\0 \0\x01\0\
              \0\0\0\0\0\0\x01\0\0\0T\0\0\0\0\0\0\0\0\0\0\0\x0c\0\0\0\x0c\0\0\0\x07\0\0\0\x04\0\0\0\x93\x08\0\0\x13\
              \x05p\0s\0\0\0",
        ),
        (
            "a.log",
            b"DLRN\x01\0\0\0d\0\0\0\x02\0\0\0\x02\0\0\0\0\x02\0\0\0\x02\0\0\0\0\0\0\0\x01\0\0\0\x05\0\0\0\0\0\0\0\0\0\0",
        ),
    ],
    status: Status::Diverged,
    said: b"c 0 0 2\nc 1 0 0\nend diverged 2 8\n",
    written: &[],
};

// The image is looked at before the log.
const BAD_IMAGE: Case = Case {
    words: &["walk", "a.elf", "4096", "a.log"],
    read: &[
        (
            "a.elf",
            b"\x7fELF\x01\x01\x01\0\0\0\0\0\0\0\0\0\x02\0\xf3\0\x01\0\0\0\0\0\0\04\0\0\0\0\0\0\0\0\0\0\04\0 \0\x01\0\0\0\0\0\0",
        ),
        ("a.log", b""),
    ],
    status: Status::Image,
    said: b"refused image 0 1\n",
    written: &[],
};

// Both are read before either is looked at.
const BOTH_ARE_READ: Case = Case {
    words: &["walk", "a.elf", "4096", "a.log"],
    read: &[(
        "a.elf",
        b"\x7fELF\x01\x01\x01\0\0\0\0\0\0\0\0\0\x02\0\xf3\0\x01\0\0\0\0\0\0\04\0\0\0\0\0\0\0\0\0\0\04\0 \0\x01\0\0\0\0\0\0",
    )],
    status: Status::Absent,
    said: b"absent a.log\n",
    written: &[],
};

pub(super) const GENERATED_IMAGE: Case = Case {
    words: &["make", "0", "x.elf"],
    read: &[],
    status: Status::Done,
    said: b"made 176\n",
    written: &[(
        "x.elf",
        b"\x7fELF\x01\x01\x01\0\0\0\0\0\0\0\0\0\x02\0\xf3\0\x01\0\0\0\0\0\0\04\0\0\0\0\0\0\0\0\0\0\04\0 \0\x01\0\0\0\
          \0\0\0\0\x01\0\0\0T\0\0\0\0\0\0\0\0\0\0\0\\\0\0\0\\\0\0\0\x07\0\0\0\x04\0\0\0\x13\x04\x10\0\x93\x08\x10\0\
          \x13\x05@\x02\x93\x05\0\0\x13\x06\x04\0s\0\0\0\x13\x04\xf4\xff\xe3\x14\x04\xfe\x13\x05\0\0\x93\x12%\0\x93\
          \x82\x02@\x13\x03\0\x01\x93\x03\x10\0\x13\x0e\0>\xaf.~\0\x03\xaf\x02\03\x0f\xdf\x01#\xa0\xe2\x01\x13\x03\
          \xf3\xff\xe3\x12\x03\xfe\x93\x08\0\0\x13\x05\0\0s\0\0\0",
    )],
};

pub(super) const DRILL: Case = Case {
    words: &["drill", "6"],
    read: &[],
    status: Status::Done,
    said: b"events 20002\ncommits 117\ns 0 record 117\nevents 1651\ncommits 117\ns 0 complete 117\nequal\n",
    written: &[],
};

pub(super) const THREE_INSTRUCTIONS: Case = Case {
    words: &["asm", "a.s", "a.elf"],
    read: &[("a.s", b"addi x17, x0, 0\naddi x10, x0, 7\necall\n")],
    status: Status::Done,
    said: b"assembled 96\n",
    written: &[(
        "a.elf",
        b"\x7fELF\x01\x01\x01\0\0\0\0\0\0\0\0\0\x02\0\xf3\0\x01\0\0\0\0\0\0\04\0\0\0\0\0\0\0\0\0\0\04\0 \0\x01\0\0\0\
          \0\0\0\0\x01\0\0\0T\0\0\0\0\0\0\0\0\0\0\0\x0c\0\0\0\x0c\0\0\0\x07\0\0\0\x04\0\0\0\x93\x08\0\0\x13\x05p\0s\
          \0\0\0",
    )],
};

const NO_LINE: Case = Case {
    words: &["asm", "a.s", "a.elf"],
    read: &[("a.s", b"")],
    status: Status::Done,
    said: b"assembled 84\n",
    written: &[(
        "a.elf",
        b"\x7fELF\x01\x01\x01\0\0\0\0\0\0\0\0\0\x02\0\xf3\0\x01\0\0\0\0\0\0\04\0\0\0\0\0\0\0\0\0\0\04\0 \0\x01\0\0\0\
          \0\0\0\0\x01\0\0\0T\0\0\0\0\0\0\0\0\0\0\0\0\0\0\0\0\0\0\0\x07\0\0\0\x04\0\0\0",
    )],
};

const OUT_OF_RANGE: Case = Case {
    words: &["asm", "a.s", "a.elf"],
    read: &[("a.s", b"addi x1, x0, 2048\n")],
    status: Status::Source,
    said: b"refused source 1 4\n",
    written: &[],
};
