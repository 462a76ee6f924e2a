//! Logs that are cut into strata. Logs, images and strata come from outside the code.
use super::queries::{DIVERGING, ROW};
use super::{Case, come_out};
use spec_program::status::Status;
use std::test::Fail;

#[test]
fn logs_are_cut_byte_for_byte(rt: HostRuntime) -> Result<(), Fail> {
    come_out(&rt, rt.alloc(), CUT)
}

const CUT: &[Case] = &[
    // The second stratum of chunks has one of each thread: neither stores a word of the other.
    Case {
        words: &["strata", "a.elf", "12288", "a.log", "a.strata"],
        read: &[
            (
                "a.elf",
                b"code: 00100893 02000513 00000613 00000073 10002283 00000893 00000073 00000013 00002337 50632023 \
                  00000893 00000073",
            ),
            (
                "a.log",
                b"DLRN\x01\0\0\0d\0\0\0\x06\0\0\0\x06\0\0\0\0\x01\x10\x06\0\0\0\x03\0\0\0\x03\0\x02\0\0\0\0\0\0\0\
                  \0\0\0\0\0\0\0\0\0\0",
            ),
        ],
        status: Status::Done,
        said: b"strata 5 71\n",
        written: &[(
            "a.strata",
            b"DLRS\x01\x02\x0f\0d\0\0\0\x05\0\0\0\0\x01\0\x01\0\0\x01\x01\x01\0\x01\x01\x03\0\0\0\0\0\0\0\0\
              \x03\0\0\0\0\x02\0\0\0\x02\0\0\0\x01\0\0\0\0\x03\0\0\0\0\0\0\0\0\0\0\0\0\0\0\0",
        )],
    },
    // Thread 1 stores over the call before which thread 0 stops: without a size it is looked at.
    Case {
        words: &["strata", "a.elf", "4096", "a.log", "a.strata"],
        read: &[
            (
                "a.elf",
                b"code: 00100893 02000513 00000613 00000073 00100293 00000893 00000073 00000013 07300313 00602C23 \
                  00000893 00000073",
            ),
            (
                "a.log",
                b"DLRN\x01\x01\0\0d\0\0\0\x06\0\0\0\x06\0\0\0\0\x10\x10\0\0\0\0\0\0\0\0\0\0\0\0\0\0\0\0",
            ),
        ],
        status: Status::Done,
        said: b"strata 6 47\n",
        written: &[(
            "a.strata",
            b"DLRS\x01\x02\x0f\0d\0\0\0\x06\0\0\0\0\x01\0\x01\0\0\x01\0\0\0\x01\x01\0\x01\x01\0\0\0\0\0\0\0\0\
              \0\0\0\0\0\0\0\0",
        )],
    },
    // With the size it isn't.
    Case {
        words: &["strata", "a.elf", "4096", "a.log", "a.strata"],
        read: &[
            (
                "a.elf",
                b"code: 00100893 02000513 00000613 00000073 00100293 00000893 00000073 00000013 07300313 00602C23 \
                  00000893 00000073",
            ),
            (
                "a.log",
                b"DLRN\x01\0\0\0d\0\0\0\x06\0\0\0\x06\0\0\0\0\x10\x10\x06\0\0\0\x03\0\0\0\x02\0\x03\0\0\0\0\0\0\0\
                  \0\0\0\0\0\0\0\0\0\0",
            ),
        ],
        status: Status::Done,
        said: b"strata 5 71\n",
        written: &[(
            "a.strata",
            b"DLRS\x01\x02\x0f\0d\0\0\0\x05\0\0\0\0\x01\0\x01\0\0\x01\x01\x01\0\x01\x01\x03\0\0\0\0\0\0\0\0\
              \x03\0\0\0\0\x02\0\0\0\x02\0\0\0\x01\0\0\0\0\x03\0\0\0\0\0\0\0\0\0\0\0\0\0\0\0",
        )],
    },
    // Thread 1 stores the word that thread 0 loads.
    Case {
        words: &["strata", "a.elf", "4096", "a.log", "a.strata"],
        read: ROW,
        status: Status::Done,
        said: b"strata 6 74\n",
        written: &[(
            "a.strata",
            b"DLRS\x01\x02\x0f\0d\0\0\0\x06\0\0\0\0\x01\0\x01\0\0\0\x01\0\x01\0\x01\0\x01\x01\x03\0\0\0\0\0\0\
              \0\0\x03\0\0\0\0\x02\0\0\0\x02\0\0\0\x01\0\0\0\0\x03\0\0\0\0\0\0\0\0\0\0\0\0\0\0\0",
        )],
    },
    // The play diverges, and no file is written.
    Case {
        words: &["strata", "a.elf", "4096", "a.log", "a.strata"],
        read: DIVERGING,
        status: Status::Diverged,
        said: b"diverged 0 2 3 2\n",
        written: &[],
    },
    // Both files are read before one is written.
    Case {
        words: &["strata", "a.elf", "4096", "a.log", "a.log"],
        read: ROW,
        status: Status::Done,
        said: b"strata 6 74\n",
        written: &[(
            "a.log",
            b"DLRS\x01\x02\x0f\0d\0\0\0\x06\0\0\0\0\x01\0\x01\0\0\0\x01\0\x01\0\x01\0\x01\x01\x03\0\0\0\0\0\0\
              \0\0\x03\0\0\0\0\x02\0\0\0\x02\0\0\0\x01\0\0\0\0\x03\0\0\0\0\0\0\0\0\0\0\0\0\0\0\0",
        )],
    },
];
