//! Parts of logs: what commits from one number up to another do, by a command and by a plan. Images, logs and texts come from
//! outside the code.
use super::queries::{DIVERGING, ROW};
use super::{Case, come_out};
use spec_program::status::Status;
use std::test::Fail;

#[test]
fn parts_of_logs_are_told_byte_for_byte(rt: HostRuntime) -> Result<(), Fail> {
    come_out(&rt, rt.alloc(), COMMANDS)
}

#[test]
fn parts_of_logs_are_replayed_byte_for_byte(rt: HostRuntime) -> Result<(), Fail> {
    come_out(&rt, rt.alloc(), PLANS)
}

// Commits 2 and 3 of the first log.
pub(super) const MIDDLE: &[u8] = b"account: c 2 1 3, c 3 0 2, l 00000100 00000009, \
  t 0 00000018 live 00000000 0 x5=9 x10=1, t 1 0000002C live 00000000 0 x6=9, \
  m 00000000 9308100013050002130600007300000083220010930800007300000013, m 00000020 13039000232060109308000073, \
  m 00000100 09, end at 4";

// Its last commit.
const LAST: &[u8] = b"account: c 5 1 0, t 0 0000001C ended:1 00000000 0 x5=9 x10=1, \
  t 1 00000030 ended:0 00000000 0 x6=9, m 00000000 9308100013050002130600007300000083220010930800007300000013, \
  m 00000020 13039000232060109308000073, m 00000100 09, end at 6";

// In another log commit 3 is shorter than its logged size.
const SHORT: &[u8] = b"c 2 1 3\n\
      end diverged 3 2 3 2\n";

const FROM_2_TO_4: &[u8] = b"plan: replay, from = 2, to = 4";

const FROM_4: &[u8] = b"plan: replay, from = 4";

const FROM_3_TO_2: &[u8] = b"plan: replay, from = 3, to = 2";

const SHORT_LOG: &[u8] =
    b"DLRN\x01\0\0\0d\0\0\0\x06\0\0\0\x06\0\0\0\0\x01\x10\x06\0\0\0\x03\0\0\0\x03\0\x03\0\0\0\0\0\0\0\0\
            \0\0\0\0\0\0\0\0\0";

const IMAGE: &[u8] =
    b"code: 00100893 02000513 00000613 00000073 10002283 00000893 00000073 00000013 00900313 10602023 00000893 \
      00000073";

const SHORTER: &[(&str, &[u8])] = &[("a.elf", IMAGE), ("a.log", SHORT_LOG)];

const COMMANDS: &[Case] = &[
    Case {
        words: &["interval", "a.elf", "4096", "a.log", "3", "2", "4"],
        read: ROW,
        status: Status::Done,
        said: MIDDLE,
        written: &[],
    },
    Case {
        words: &["interval", "a.elf", "4096", "a.log", "1", "2", "4"],
        read: ROW,
        status: Status::Done,
        said: MIDDLE,
        written: &[],
    },
    Case {
        words: &["interval", "a.elf", "4096", "a.log", "2", "5", "9"],
        read: ROW,
        status: Status::Done,
        said: LAST,
        written: &[],
    },
    Case {
        words: &["interval", "a.elf", "4096", "a.log", "3", "0", "2"],
        read: DIVERGING,
        status: Status::Diverged,
        said: b"end diverged 0 2 3 2\n",
        written: &[],
    },
    Case {
        words: &["interval", "a.elf", "4096", "a.log", "2", "2", "4"],
        read: SHORTER,
        status: Status::Diverged,
        said: SHORT,
        written: &[],
    },
    Case {
        words: &["interval", "a.elf", "4096", "a.log", "1", "4", "2"],
        read: ROW,
        status: Status::Usage,
        said: b"usage\n",
        written: &[],
    },
    Case {
        words: &["interval", "a.elf", "4096", "a.log", "0", "2", "4"],
        read: ROW,
        status: Status::Usage,
        said: b"usage\n",
        written: &[],
    },
];

const LOG: &[u8] =
    b"DLRN\x01\0\0\0d\0\0\0\x06\0\0\0\x06\0\0\0\0\x01\x10\x06\0\0\0\x03\0\0\0\x03\0\x02\0\0\0\0\0\0\0\0\
            \0\0\0\0\0\0\0\0\0";

const MIDDLE_REPORT: &[u8] =
    b"lines: g 4 0 1 chunk 3, g 10 0 0 chunk 2, r Ran 3, r Closed 2, r Granted 2, \
  r Drained 1, r Retired 1, r Placed 2, events 11, commits 2, s 0 complete 4";

const SUMMARY: &[u8] = b"lines: events 11, commits 2, s 0 complete 4";

// The log diverges before its commit 4, where the replay was to begin.
const NOTHING: &[u8] = b"lines: events 0, commits 0, s 0 diverged 3 2 3 2";

const PLANS: &[Case] = &[
    Case {
        words: &["run", "plan.toml"],
        read: &[
            ("plan.toml", FROM_2_TO_4),
            ("s.txt", b""),
            ("a.elf", IMAGE),
            ("a.log", LOG),
        ],
        status: Status::Done,
        said: SUMMARY,
        written: &[("b.txt", MIDDLE), ("r.txt", MIDDLE_REPORT)],
    },
    Case {
        words: &["run", "plan.toml"],
        read: &[
            ("plan.toml", FROM_4),
            ("s.txt", b""),
            ("a.elf", IMAGE),
            ("a.log", SHORT_LOG),
        ],
        status: Status::Diverged,
        said: NOTHING,
        written: &[("b.txt", b"end diverged 3 2 3 2\n"), ("r.txt", NOTHING)],
    },
    Case {
        words: &["run", "plan.toml"],
        read: &[
            ("plan.toml", FROM_3_TO_2),
            ("s.txt", b""),
            ("a.elf", IMAGE),
            ("a.log", LOG),
        ],
        status: Status::Plan,
        said: b"refused plan 9\n",
        written: &[],
    },
];
