//! Runs of machines whose plan has a depth. What is written comes from outside the code.
use super::recording::IMAGE;
use super::{Case, RUN, come_out};
use spec_program::status::Status;
use std::test::Fail;

#[test]
fn depths_come_out_byte_for_byte(rt: HostRuntime) -> Result<(), Fail> {
    come_out(&rt, rt.alloc(), CASES)
}

const CASES: &[Case] = &[TWO_CHUNKS, TWO_CHUNKS_REPLAYED, ONE_CHUNK, THREE_CHUNKS];

const SCRIPT: &[u8] = b"lines: step 0, cut 0, step 0 x2, ask 0 x2, step 0, ask 0";

// Of three commits: two chunks of one instruction, and the exit.
const LOG: &[u8] =
    b"DLRN\x01\0\0\0d\0\0\0\x03\0\0\0\x03\0\0\0\0\0\x03\0\0\0\x01\0\x01\0\0\0\0\0\0\0\0\0\0\0\0\0\0\0";

const ACCOUNT: &[u8] =
    b"account: c 0 0 1, c 1 0 1, c 2 0 0, t 0 0000000C ended:7 00000000 0 x10=7, \
  m 00000000 930800001305700073, end complete 3";

// The second chunk begins while the first waits to be granted.
const TWO_CHUNKS: Case = Case {
    words: RUN,
    read: &[
        ("a.elf", IMAGE),
        ("plan.toml", b"plan: depth = 2; record"),
        ("s.txt", SCRIPT),
    ],
    status: Status::Done,
    said: b"events 8\ncommits 3\ns 0 record 3\n",
    written: &[
        ("a.log", LOG),
        ("a.txt", ACCOUNT),
        (
            "r.txt",
            b"lines: g 4 0 0 chunk 1, g 5 0 0 chunk 1, g 7 0 0 serial 0, r Ran 2, r Closed 3, r Granted 3, events 8, \
              commits 3, s 0 record 3",
        ),
    ],
};

// The script steps the younger chunk before the older one is granted.
const TWO_CHUNKS_REPLAYED: Case = Case {
    words: RUN,
    read: &[
        ("a.elf", IMAGE),
        (
            "plan.toml",
            b"plan: cores = 8, depth = 2; replay, account = \"a.txt\"",
        ),
        ("s.txt", b"lines: step 0 x3, ask 0 x2, step 0, ask 0"),
        ("a.log", LOG),
    ],
    status: Status::Done,
    said: b"events 7\ncommits 3\ns 0 complete 3\n",
    written: &[
        ("a.txt", ACCOUNT),
        (
            "r.txt",
            b"lines: g 3 0 0 chunk 1, g 4 0 0 chunk 1, g 6 0 0 serial 0, r Closed 3, r Waiting 1, r Granted 3, \
              events 7, commits 3, s 0 complete 3",
        ),
    ],
};

// The steps after the cut find a chunk that waits.
const ONE_CHUNK: Case = Case {
    words: RUN,
    read: &[
        ("a.elf", IMAGE),
        ("plan.toml", b"plan: depth = 1; record"),
        ("s.txt", SCRIPT),
    ],
    status: Status::Done,
    said: b"events 8\ncommits 1\ns 0 record 1\n",
    written: &[
        (
            "a.log",
            b"DLRN\x01\0\0\0d\0\0\0\x01\0\0\0\x01\0\0\0\0\x01\0\0\0\x01\0\0\0\0\0\0\0\0\0\0\0\0\0",
        ),
        (
            "a.txt",
            b"account: c 0 0 1, t 0 00000004 live 00000000 0, m 00000000 930800001305700073, end complete 1",
        ),
        (
            "r.txt",
            b"lines: g 4 0 0 chunk 1, r Ran 2, r Closed 1, r Waiting 2, r Granted 1, r NotClosed 2, events 8, \
              commits 1, s 0 record 1",
        ),
    ],
};

// No core has three.
const THREE_CHUNKS: Case = Case {
    words: RUN,
    read: &[
        ("a.elf", IMAGE),
        ("plan.toml", b"plan: depth = 3; record"),
        ("s.txt", SCRIPT),
    ],
    status: Status::Plan,
    said: b"refused plan 4\n",
    written: &[],
};
