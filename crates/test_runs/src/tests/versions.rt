//! Logs of both versions: what is recorded, migrated, replayed and walked. What is written comes from outside the code.
use super::recording::{IMAGE, SCRIPT};
use super::{Case, RUN, come_out, comes_out};
use spec_program::status::Status;
use std::test::Fail;

#[test]
fn versions_come_out_byte_for_byte(rt: HostRuntime) -> Result<(), Fail> {
    come_out(&rt, rt.alloc(), CASES)
}

const CASES: &[Case] = &[
    RECORDED_IN_VERSION_2,
    MIGRATED,
    VERSION_2_AS_IT_IS,
    NOTHING_TO_MIGRATE,
    LONGEST_CHUNK,
    LONGEST_CHUNK_REPLAYED,
    OTHER_THREADS,
    OVER_ITSELF,
];

#[test]
fn sixteenth_refused_comes_out_byte_for_byte(rt: HostRuntime) -> Result<(), Fail> {
    comes_out(&rt, rt.alloc(), &SIXTEENTH_REFUSED)
}

#[test]
fn sixteenth_refused_replayed_comes_out_byte_for_byte(rt: HostRuntime) -> Result<(), Fail> {
    comes_out(&rt, rt.alloc(), &SIXTEENTH_REFUSED_REPLAYED)
}

#[test]
fn sixteenth_refused_migrated_comes_out_byte_for_byte(rt: HostRuntime) -> Result<(), Fail> {
    comes_out(&rt, rt.alloc(), &SIXTEENTH_REFUSED_MIGRATED)
}

#[test]
fn migrated_replayed_comes_out_byte_for_byte(rt: HostRuntime) -> Result<(), Fail> {
    comes_out(&rt, rt.alloc(), &MIGRATED_REPLAYED)
}

#[test]
fn migrated_walked_comes_out_byte_for_byte(rt: HostRuntime) -> Result<(), Fail> {
    comes_out(&rt, rt.alloc(), &MIGRATED_WALKED)
}

#[test]
fn sixteenth_in_version_2_comes_out_byte_for_byte(rt: HostRuntime) -> Result<(), Fail> {
    comes_out(&rt, rt.alloc(), &SIXTEENTH_IN_VERSION_2)
}

// Thread 0 spawns fifteen threads, one after another, and exits with what the last spawn answers.
const SIXTEEN: &[u8] =
    b"code: 00F00413 00100893 02400513 00000613 00000073 FFF40413 FE0416E3 00000893 00000073 00000893 00000073";

// The last spawn is refused.
const SIXTEEN_ACCOUNT: &[u8] =
    b"account: c 0 0 4, c 1 0 0, c 2 0 5, c 3 0 0, c 4 0 5, c 5 0 0, c 6 0 5, c 7 0 0, \
  c 8 0 5, c 9 0 0, c 10 0 5, c 11 0 0, c 12 0 5, c 13 0 0, c 14 0 5, c 15 0 0, c 16 0 5, c 17 0 0, c 18 0 5, \
  c 19 0 0, c 20 0 5, c 21 0 0, c 22 0 5, c 23 0 0, c 24 0 5, c 25 0 0, c 26 0 5, c 27 0 0, c 28 0 5, c 29 0 0, \
  c 30 0 3, c 31 0 0, t 0 00000024 ended:4294967292 00000000 0 x10=FFFFFFFC, t 1 00000024 live 00000000 0, \
  t 2 00000024 live 00000000 0, t 3 00000024 live 00000000 0, t 4 00000024 live 00000000 0, \
  t 5 00000024 live 00000000 0, t 6 00000024 live 00000000 0, t 7 00000024 live 00000000 0, \
  t 8 00000024 live 00000000 0, t 9 00000024 live 00000000 0, t 10 00000024 live 00000000 0, \
  t 11 00000024 live 00000000 0, t 12 00000024 live 00000000 0, t 13 00000024 live 00000000 0, \
  t 14 00000024 live 00000000 0, m 00000000 1304F000930810001305400213060000730000001304F4FFE31604FE9308, \
  m 00000020 730000009308000073, end complete 32";

const SIXTEEN_LOG: &[u8] =
    b"DLRN\x01\x01\0\0d\0\0\0 \0\0\0 \0\0\0\0\0\0\0\0\0\0\0\0\0\0\0\0\0\0\0\0\0\0\0\0\0\0\0\0\0\0\0\0\0\0\0";

// The same in version 2, with 15 threads still.
const SIXTEEN_MIGRATED: &[u8] =
    b"DLRN\x02\x01\x0f\0d\0\0\0 \0\0\0 \0\0\0\0\0\0\0\0\0\0\0\0\0\0\0\0\0\0\0\0\0\0\0\0\0\0\0\0\0\0\0\0\0\0\0\0\0\0\
      \0\0\0\0\0\0\0\0\0\0\0\0\0";

// Of two commits.
const THREE_LOG: &[u8] =
    b"DLRN\x01\0\0\0d\0\0\0\x02\0\0\0\x02\0\0\0\0\x02\0\0\0\x02\0\0\0\0\0\0\0\0\0\0\0\0\0\0\0";

// The same in version 2, with 15 threads.
const THREE_LOG_15: &[u8] =
    b"DLRN\x02\0\x0f\0d\0\0\0\x02\0\0\0\x02\0\0\0\0\0\x02\0\0\0\x02\0\0\0\0\0\0\0\0\0\0\0\0\0\0\0\0\0\0\0";

// The same as version 2 records it, with 63 threads.
const THREE_LOG_63: &[u8] =
    b"DLRN\x02\0?\0d\0\0\0\x02\0\0\0\x02\0\0\0\0\0\x02\0\0\0\x02\0\0\0\0\0\0\0\0\0\0\0\0\0\0\0\0\0\0\0";

const RECORDED_IN_VERSION_2: Case = Case {
    words: RUN,
    read: &[
        ("a.elf", IMAGE),
        ("plan.toml", b"plan: record, version = 2"),
        ("s.txt", SCRIPT),
    ],
    status: Status::Done,
    said: b"events 6\ncommits 2\ns 0 record 2\n",
    written: &[
        ("a.log", THREE_LOG_63),
        (
            "a.txt",
            b"account: c 0 0 2, c 1 0 0, t 0 0000000C ended:7 00000000 0 x10=7, m 00000000 930800001305700073, \
              end complete 2",
        ),
        (
            "r.txt",
            b"lines: g 3 0 0 chunk 2, g 5 0 0 serial 0, r Ran 2, r Closed 2, r Granted 2, events 6, commits 2, \
              s 0 record 2",
        ),
    ],
};

pub(super) const MIGRATED: Case = Case {
    words: &["migrate", "a.log", "b.log"],
    read: &[("a.log", THREE_LOG)],
    status: Status::Done,
    said: b"migrated 46\n",
    written: &[("b.log", THREE_LOG_15)],
};

const VERSION_2_AS_IT_IS: Case = Case {
    words: &["migrate", "a.log", "b.log"],
    read: &[("a.log", THREE_LOG_63)],
    status: Status::Done,
    said: b"migrated 46\n",
    written: &[("b.log", THREE_LOG_63)],
};

// Nothing is written.
const NOTHING_TO_MIGRATE: Case = Case {
    words: &["migrate", "a.log", "b.log"],
    read: &[(
        "a.log",
        b"DLRN\x01\0\0\0d\0\0\0\x02\0\0\0\x02\0\0\0\0\x02\0\0\0\x02\0\0\0\0\0\0\0\0\0\0\0\0\0\0\0\0",
    )],
    status: Status::Grammar,
    said: b"refused log 0 7 41\n",
    written: &[],
};

const SIXTEENTH_REFUSED: Case = Case {
    words: RUN,
    read: &[
        ("a.elf", SIXTEEN),
        ("plan.toml", b"plan: record, mode = \"order-only\""),
        (
            "s.txt",
            b"lines: step 0 x5, ask 0, step 0, ask 0, step 0 x6, ask 0, step 0, ask 0, step 0 x6, ask 0, step 0, \
              ask 0, step 0 x6, ask 0, step 0, ask 0, step 0 x6, ask 0, step 0, ask 0, step 0 x6, ask 0, step 0, \
              ask 0, step 0 x6, ask 0, step 0, ask 0, step 0 x6, ask 0, step 0, ask 0, step 0 x6, ask 0, step 0, \
              ask 0, step 0 x6, ask 0, step 0, ask 0, step 0 x6, ask 0, step 0, ask 0, step 0 x6, ask 0, step 0, \
              ask 0, step 0 x6, ask 0, step 0, ask 0, step 0 x6, ask 0, step 0, ask 0, step 0 x6, ask 0, step 0, \
              ask 0, step 0 x4, ask 0, step 0, ask 0",
        ),
    ],
    status: Status::Done,
    said: b"events 141\ncommits 32\ns 0 record 32\n",
    written: &[
        ("a.log", SIXTEEN_LOG),
        ("a.txt", SIXTEEN_ACCOUNT),
        (
            "r.txt",
            b"lines: g 5 0 0 chunk 4, g 7 0 0 serial 0, g 14 0 0 chunk 5, g 16 0 0 serial 0, g 23 0 0 chunk 5, \
              g 25 0 0 serial 0, g 32 0 0 chunk 5, g 34 0 0 serial 0, g 41 0 0 chunk 5, g 43 0 0 serial 0, \
              g 50 0 0 chunk 5, g 52 0 0 serial 0, g 59 0 0 chunk 5, g 61 0 0 serial 0, g 68 0 0 chunk 5, \
              g 70 0 0 serial 0, g 77 0 0 chunk 5, g 79 0 0 serial 0, g 86 0 0 chunk 5, g 88 0 0 serial 0, \
              g 95 0 0 chunk 5, g 97 0 0 serial 0, g 104 0 0 chunk 5, g 106 0 0 serial 0, g 113 0 0 chunk 5, \
              g 115 0 0 serial 0, g 122 0 0 chunk 5, g 124 0 0 serial 0, g 131 0 0 chunk 5, g 133 0 0 serial 0, \
              g 138 0 0 chunk 3, g 140 0 0 serial 0, r Ran 77, r Closed 32, r Granted 32, events 141, commits 32, \
              s 0 record 32",
        ),
    ],
};

const SIXTEENTH_REFUSED_REPLAYED: Case = Case {
    words: RUN,
    read: &[
        ("a.elf", SIXTEEN),
        ("a.log", SIXTEEN_LOG),
        ("plan.toml", b"plan: replay"),
        ("s.txt", b""),
    ],
    status: Status::Done,
    said: b"events 141\ncommits 32\ns 0 complete 32\n",
    written: &[
        ("b.txt", SIXTEEN_ACCOUNT),
        (
            "r.txt",
            b"lines: g 5 0 0 chunk 4, g 7 0 0 serial 0, g 14 0 0 chunk 5, g 16 0 0 serial 0, g 23 0 0 chunk 5, \
              g 25 0 0 serial 0, g 32 0 0 chunk 5, g 34 0 0 serial 0, g 41 0 0 chunk 5, g 43 0 0 serial 0, \
              g 50 0 0 chunk 5, g 52 0 0 serial 0, g 59 0 0 chunk 5, g 61 0 0 serial 0, g 68 0 0 chunk 5, \
              g 70 0 0 serial 0, g 77 0 0 chunk 5, g 79 0 0 serial 0, g 86 0 0 chunk 5, g 88 0 0 serial 0, \
              g 95 0 0 chunk 5, g 97 0 0 serial 0, g 104 0 0 chunk 5, g 106 0 0 serial 0, g 113 0 0 chunk 5, \
              g 115 0 0 serial 0, g 122 0 0 chunk 5, g 124 0 0 serial 0, g 131 0 0 chunk 5, g 133 0 0 serial 0, \
              g 138 0 0 chunk 3, g 140 0 0 serial 0, r Ran 77, r Closed 32, r Granted 32, events 141, commits 32, \
              s 0 complete 32",
        ),
    ],
};

const SIXTEENTH_REFUSED_MIGRATED: Case = Case {
    words: &["migrate", "a.log", "b.log"],
    read: &[("a.log", SIXTEEN_LOG)],
    status: Status::Done,
    said: b"migrated 68\n",
    written: &[("b.log", SIXTEEN_MIGRATED)],
};

// The log says that the sphere has 15 threads.
const MIGRATED_REPLAYED: Case = Case {
    words: RUN,
    read: &[
        ("a.elf", SIXTEEN),
        ("a.log", SIXTEEN_MIGRATED),
        ("plan.toml", b"plan: replay"),
        ("s.txt", b""),
    ],
    status: Status::Done,
    said: b"events 141\ncommits 32\ns 0 complete 32\n",
    written: &[
        ("b.txt", SIXTEEN_ACCOUNT),
        (
            "r.txt",
            b"lines: g 5 0 0 chunk 4, g 7 0 0 serial 0, g 14 0 0 chunk 5, g 16 0 0 serial 0, g 23 0 0 chunk 5, \
              g 25 0 0 serial 0, g 32 0 0 chunk 5, g 34 0 0 serial 0, g 41 0 0 chunk 5, g 43 0 0 serial 0, \
              g 50 0 0 chunk 5, g 52 0 0 serial 0, g 59 0 0 chunk 5, g 61 0 0 serial 0, g 68 0 0 chunk 5, \
              g 70 0 0 serial 0, g 77 0 0 chunk 5, g 79 0 0 serial 0, g 86 0 0 chunk 5, g 88 0 0 serial 0, \
              g 95 0 0 chunk 5, g 97 0 0 serial 0, g 104 0 0 chunk 5, g 106 0 0 serial 0, g 113 0 0 chunk 5, \
              g 115 0 0 serial 0, g 122 0 0 chunk 5, g 124 0 0 serial 0, g 131 0 0 chunk 5, g 133 0 0 serial 0, \
              g 138 0 0 chunk 3, g 140 0 0 serial 0, r Ran 77, r Closed 32, r Granted 32, events 141, commits 32, \
              s 0 complete 32",
        ),
    ],
};

const MIGRATED_WALKED: Case = Case {
    words: &["walk", "a.elf", "4096", "a.log"],
    read: &[("a.elf", SIXTEEN), ("a.log", SIXTEEN_MIGRATED)],
    status: Status::Done,
    said: SIXTEEN_ACCOUNT,
    written: &[],
};

// The last spawn answers 15.
const SIXTEENTH_IN_VERSION_2: Case = Case {
    words: RUN,
    read: &[
        ("a.elf", SIXTEEN),
        (
            "plan.toml",
            b"plan: record, mode = \"order-only\", version = 2",
        ),
        (
            "s.txt",
            b"lines: step 0 x5, ask 0, step 0, ask 0, step 0 x6, ask 0, step 0, ask 0, step 0 x6, ask 0, step 0, \
              ask 0, step 0 x6, ask 0, step 0, ask 0, step 0 x6, ask 0, step 0, ask 0, step 0 x6, ask 0, step 0, \
              ask 0, step 0 x6, ask 0, step 0, ask 0, step 0 x6, ask 0, step 0, ask 0, step 0 x6, ask 0, step 0, \
              ask 0, step 0 x6, ask 0, step 0, ask 0, step 0 x6, ask 0, step 0, ask 0, step 0 x6, ask 0, step 0, \
              ask 0, step 0 x6, ask 0, step 0, ask 0, step 0 x6, ask 0, step 0, ask 0, step 0 x6, ask 0, step 0, \
              ask 0, step 0 x4, ask 0, step 0, ask 0",
        ),
    ],
    status: Status::Done,
    said: b"events 141\ncommits 32\ns 0 record 32\n",
    written: &[
        (
            "a.log",
            b"DLRN\x02\x01?\0d\0\0\0 \0\0\0 \0\0\0\0\0\0\0\0\0\0\0\0\0\0\0\0\0\0\0\0\0\0\0\0\0\0\0\0\0\0\0\0\0\0\0\0\
              \0\0\0\0\0\0\0\0\0\0\0\0\0\0\0",
        ),
        (
            "a.txt",
            b"account: c 0 0 4, c 1 0 0, c 2 0 5, c 3 0 0, c 4 0 5, c 5 0 0, c 6 0 5, c 7 0 0, c 8 0 5, c 9 0 0, \
              c 10 0 5, c 11 0 0, c 12 0 5, c 13 0 0, c 14 0 5, c 15 0 0, c 16 0 5, c 17 0 0, c 18 0 5, c 19 0 0, \
              c 20 0 5, c 21 0 0, c 22 0 5, c 23 0 0, c 24 0 5, c 25 0 0, c 26 0 5, c 27 0 0, c 28 0 5, c 29 0 0, \
              c 30 0 3, c 31 0 0, t 0 00000024 ended:15 00000000 0 x10=F, t 1 00000024 live 00000000 0, \
              t 2 00000024 live 00000000 0, t 3 00000024 live 00000000 0, t 4 00000024 live 00000000 0, \
              t 5 00000024 live 00000000 0, t 6 00000024 live 00000000 0, t 7 00000024 live 00000000 0, \
              t 8 00000024 live 00000000 0, t 9 00000024 live 00000000 0, t 10 00000024 live 00000000 0, \
              t 11 00000024 live 00000000 0, t 12 00000024 live 00000000 0, t 13 00000024 live 00000000 0, \
              t 14 00000024 live 00000000 0, t 15 00000024 live 00000000 0, \
              m 00000000 1304F000930810001305400213060000730000001304F4FFE31604FE9308, m 00000020 730000009308000073, \
              end complete 32",
        ),
        (
            "r.txt",
            b"lines: g 5 0 0 chunk 4, g 7 0 0 serial 0, g 14 0 0 chunk 5, g 16 0 0 serial 0, g 23 0 0 chunk 5, \
              g 25 0 0 serial 0, g 32 0 0 chunk 5, g 34 0 0 serial 0, g 41 0 0 chunk 5, g 43 0 0 serial 0, \
              g 50 0 0 chunk 5, g 52 0 0 serial 0, g 59 0 0 chunk 5, g 61 0 0 serial 0, g 68 0 0 chunk 5, \
              g 70 0 0 serial 0, g 77 0 0 chunk 5, g 79 0 0 serial 0, g 86 0 0 chunk 5, g 88 0 0 serial 0, \
              g 95 0 0 chunk 5, g 97 0 0 serial 0, g 104 0 0 chunk 5, g 106 0 0 serial 0, g 113 0 0 chunk 5, \
              g 115 0 0 serial 0, g 122 0 0 chunk 5, g 124 0 0 serial 0, g 131 0 0 chunk 5, g 133 0 0 serial 0, \
              g 138 0 0 chunk 3, g 140 0 0 serial 0, r Ran 77, r Closed 32, r Granted 32, events 141, commits 32, \
              s 0 record 32",
        ),
    ],
};

const LONGEST_CHUNK: Case = Case {
    words: RUN,
    read: &[
        ("a.elf", IMAGE),
        ("plan.toml", b"plan: chunk = 65536; record, version = 2"),
        ("s.txt", SCRIPT),
    ],
    status: Status::Done,
    said: b"events 6\ncommits 2\ns 0 record 2\n",
    written: &[
        (
            "a.log",
            b"DLRN\x02\0?\0\0\0\x01\0\x02\0\0\0\x02\0\0\0\0\0\x02\0\0\0\x02\0\0\0\0\0\0\0\0\0\0\0\0\0\0\0\0\0\0\0",
        ),
        (
            "a.txt",
            b"account: c 0 0 2, c 1 0 0, t 0 0000000C ended:7 00000000 0 x10=7, m 00000000 930800001305700073, \
              end complete 2",
        ),
        (
            "r.txt",
            b"lines: g 3 0 0 chunk 2, g 5 0 0 serial 0, r Ran 2, r Closed 2, r Granted 2, events 6, commits 2, \
              s 0 record 2",
        ),
    ],
};

const LONGEST_CHUNK_REPLAYED: Case = Case {
    words: RUN,
    read: &[
        ("a.elf", IMAGE),
        (
            "a.log",
            b"DLRN\x02\0?\0\0\0\x01\0\x02\0\0\0\x02\0\0\0\0\0\x02\0\0\0\x02\0\0\0\0\0\0\0\0\0\0\0\0\0\0\0\0\0\0\0",
        ),
        ("plan.toml", b"plan: replay"),
        ("s.txt", b""),
    ],
    status: Status::Done,
    said: b"events 5\ncommits 2\ns 0 complete 2\n",
    written: &[
        (
            "b.txt",
            b"account: c 0 0 2, c 1 0 0, t 0 0000000C ended:7 00000000 0 x10=7, m 00000000 930800001305700073, \
              end complete 2",
        ),
        (
            "r.txt",
            b"lines: g 2 0 0 chunk 2, g 4 0 0 serial 0, r Ran 1, r Closed 2, r Granted 2, events 5, commits 2, \
              s 0 complete 2",
        ),
    ],
};

const OTHER_THREADS: Case = Case {
    words: &["inspect", "a.log"],
    read: &[(
        "a.log",
        b"DLRN\x02\0\x10\0d\0\0\0\x02\0\0\0\x02\0\0\0\0\0\x02\0\0\0\x02\0\0\0\0\0\0\0\0\0\0\0\0\0\0\0\0\0\0\0",
    )],
    status: Status::Grammar,
    said: b"refused log 0 5 6\n",
    written: &[],
};

// The log is read whole before its file is written.
const OVER_ITSELF: Case = Case {
    words: &["migrate", "a.log", "a.log"],
    read: &[("a.log", THREE_LOG)],
    status: Status::Done,
    said: b"migrated 46\n",
    written: &[("a.log", THREE_LOG_15)],
};
