//! Spheres that replay strata. Images, strata and texts come from outside the code.
use super::{Case, come_out};
use spec_program::status::Status;
use std::test::Fail;

#[test]
fn strata_are_replayed_byte_for_byte(rt: HostRuntime) -> Result<(), Fail> {
    come_out(&rt, rt.alloc(), REPLAYS)
}

#[test]
fn strata_are_replayed_on_one_core(rt: HostRuntime) -> Result<(), Fail> {
    come_out(&rt, rt.alloc(), ON_ONE_CORE)
}

#[test]
fn strata_that_are_not_parallel_are_refused(rt: HostRuntime) -> Result<(), Fail> {
    come_out(&rt, rt.alloc(), REFUSALS)
}

// Two threads that load and store different words, with the second stratum of chunks of both.
pub(super) const APART: &[u8] =
    b"code: 00100893 02000513 00000613 00000073 10002283 00000893 00000073 00000013 00002337 50632023 00000893 \
      00000073";

pub(super) const APART_STRATA: &[u8] =
    b"DLRS\x01\x02\x0f\0d\0\0\0\x05\0\0\0\0\x01\0\x01\0\0\x01\x01\x01\0\x01\x01\x03\0\0\0\0\0\0\0\0\x03\0\
      \0\0\0\x02\0\0\0\x02\0\0\0\x01\0\0\0\0\x03\0\0\0\0\0\0\0\0\0\0\0\0\0\0\0";

pub(super) const TWO_CORES: &[u8] = b"plan: cores = 2; strata, memory = 12288";

// Thread 1 asks first in that stratum.
pub(super) const SECOND_FIRST: &[u8] =
    b"lines: step 0 x4, ask 0, step 0, ask 0, place 1 0 1, step 1 x3, step 0 x2, \
  ask 1, ask 0, step 1, ask 1, deliver 0 0, drain 0, retire 0, ask 1, step 0 x2, ask 0, ask 1, step 0, ask 0, ask 1";

// The account has thread 0 first all the same.
const IN_THEIR_ORDER: &[u8] =
    b"account: c 0 0 3, c 1 0 0, c 2 0 2, l 00000100 00000000, c 3 1 3, c 4 0 0, c 5 1 0, \
  t 0 0000001C ended:1 00000000 0 x10=1, t 1 00000030 ended:0 00000000 0 x6=2000, \
  m 00000000 9308100013050002130600007300000083220010930800007300000013, m 00000020 37230000232063509308000073, \
  m 00002500 0020, end complete 6";

const NAMED: &[u8] =
    b"lines: g 4 0 0 chunk 3, g 6 0 0 serial 0, g 13 0 1 chunk 3, g 23 0 0 chunk 2, \
  g 26 0 0 serial 0, g 27 0 1 serial 0, r Ran 6, r Closed 7, r Waiting 1, r Granted 6, r NotTurn 3, r Denied 1, \
  r Drained 1, r Squashed 1, r Retired 1, r Placed 1, events 28, commits 6, s 0 complete 6";

// Each of two threads stores two words; the buffer has one.
const PIECES: &[u8] =
    b"code: 00100893 02000513 00000613 00000073 10A02023 11102223 00000893 00000073 14A02023 14202223 00000893 \
      00000073";

const PIECES_STRATA: &[u8] =
    b"DLRS\x01\x02\x0f\0d\0\0\0\x05\0\0\0\0\x01\0\x01\0\0\x01\x01\x01\0\x01\x01\0\0\0\0\0\0\0\0\0\0\0\0\0\
      \0\0\0";

const ONE_WORD: &[u8] = b"plan: cores = 2, buffer = 1; strata";

const PIECE_FIRST: &[u8] =
    b"lines: step 0 x4, ask 0, step 0, ask 0, place 1 0 1, step 0 x2, step 1 x2, ask 1, ask 0, \
  drain 0, deliver 0 0, retire 0, ask 0, step 1 x3, ask 1, ask 0, drain 0, deliver 0 0, retire 0";

const PIECES_ACCOUNT: &[u8] = b"account: c 0 0 3, c 1 0 0, c 2 0 3, c 3 1 3, c 4 0 0, c 5 1 0, \
  t 0 00000020 ended:1 00000000 0 x10=1, t 1 00000030 ended:0 00000000 0, \
  m 00000000 930810001305000213060000730000002320A010232210119308000073, m 00000020 2320A014232220149308000073, \
  m 00000100 0100000001, end complete 6";

const PIECES_REPORT: &[u8] =
    b"lines: g 4 0 0 chunk 3, g 6 0 0 serial 0, g 12 0 1 piece 1, g 21 0 1 chunk 2, \
  g 22 0 0 piece 1, g 32 0 0 chunk 2, g 37 0 0 serial 0, g 39 0 1 serial 0, r Ran 9, r Closed 8, r Granted 6, \
  r Piece 2, r NotTurn 2, r Drained 4, r Delivered 4, r Retired 4, r Placed 1, events 40, commits 6, s 0 complete 6";

// The store of thread 1 and the load of thread 0 are in one stratum.
const CONFLICT: &[u8] =
    b"DLRS\x01\x02\x0f\0d\0\0\0\x05\0\0\0\0\x01\0\x01\0\0\x01\x01\x01\0\x01\x01\x03\0\0\0\0\0\0\0\0\x03\0\
      \0\0\0\x02\0\0\0\x02\0\0\0\x01\0\0\0\0\x03\0\0\0\0\0\0\0\0\0\0\0\0\0\0\0";

const CONFLICT_PLAN: &[u8] = b"plan: strata";

// The same with a size that no commit uses.
const LEFT_OVER: &[u8] =
    b"DLRS\x01\x02\x0f\0d\0\0\0\x05\0\0\0\0\x01\0\x01\0\0\x01\x01\x01\0\x01\x01\x04\0\0\0\0\0\0\0\0\x03\0\
      \0\0\0\x02\0\0\0\x02\0\0\0\x01\0\0\0\0\x03\0\0\0\x01\x05\0\0\0\x01\0\0\0\0\0\0\0\0\0\0\0\0\0\0\0";

// Thread 0 loads a word that thread 1 stores.
const RACE: &[u8] =
    b"code: 00100893 02000513 00000613 00000073 10002283 00000893 00000073 00000013 00900313 10602023 00000893 \
      00000073";

const REPLAYS: &[Case] = &[
    Case {
        words: &["run", "plan.toml"],
        read: &[
            ("plan.toml", TWO_CORES),
            ("s.txt", SECOND_FIRST),
            ("a.elf", APART),
            ("a.strata", APART_STRATA),
        ],
        status: Status::Done,
        said: b"events 28\ncommits 6\ns 0 complete 6\n",
        written: &[("b.txt", IN_THEIR_ORDER), ("r.txt", NAMED)],
    },
    // Between the pieces of thread 1 the other one is told to wait for it.
    Case {
        words: &["run", "plan.toml"],
        read: &[
            ("plan.toml", ONE_WORD),
            ("s.txt", PIECE_FIRST),
            ("a.elf", PIECES),
            ("a.strata", PIECES_STRATA),
        ],
        status: Status::Done,
        said: b"events 40\ncommits 6\ns 0 complete 6\n",
        written: &[("b.txt", PIECES_ACCOUNT), ("r.txt", PIECES_REPORT)],
    },
];

// One core with a buffer of one word.
const ONE_CORE: &[u8] = b"plan: buffer = 1; strata, memory = 12288";

const IN_TURN: &[u8] =
    b"lines: g 3 0 0 chunk 3, g 5 0 0 serial 0, g 8 0 0 chunk 2, g 13 0 1 chunk 3, \
  g 18 0 0 serial 0, g 21 0 1 serial 0, r Ran 5, r Closed 6, r Granted 6, r Drained 1, r Retired 1, r Placed 3, \
  events 22, commits 6, s 0 complete 6";

// The same with the largest window and signature, and events that are drawn.
const DRAWN: &[u8] = b"cores = 1\n\
      chunk = 4096\n\
      buffer = 1\n\
      window = 8\n\
      signature = 2048\n\
      seed = 1\n\
      events = 200000\n\
      report = \"r.txt\"\n\
      [[sphere]]\n\
      image = \"a.elf\"\n\
      memory = 12288\n\
      role = \"replay\"\n\
      strata = \"a.strata\"\n\
      account = \"b.txt\"\n";

const DRAWN_REPORT: &[u8] =
    b"lines: g 9 0 0 chunk 3, g 11 0 0 serial 0, g 15 0 0 chunk 2, g 605 0 1 chunk 3, \
  g 1458 0 0 serial 0, g 2890 0 1 serial 0, r Ran 5, r Closed 8, r Waiting 933, r Idle 145848, r Stopped 3024, \
  r NothingRun 2, r Granted 6, r NotClosed 1, r NotTurn 170, r Drained 1, r Clean 1, r Already 5, r Retired 1, \
  r NoCommit 43777, r Placed 3, r Elsewhere 3, r NoThread 2682, r Ended 385, r FromLog 3145, events 200000, \
  commits 6, s 0 complete 6";

// Six strata, since the load and the store of the two threads conflict.
const RACE_STRATA: &[u8] =
    b"DLRS\x01\x02\x0f\0d\0\0\0\x06\0\0\0\0\x01\0\x01\0\0\0\x01\0\x01\0\x01\0\x01\x01\x03\0\0\0\0\
      \0\0\0\0\x03\0\0\0\0\x02\0\0\0\x02\0\0\0\x01\0\0\0\0\x03\0\0\0\0\0\0\0\0\0\0\0\0\0\0\0";

const DRAWN_RACE: &[u8] = b"cores = 1\n\
      chunk = 4096\n\
      buffer = 1\n\
      window = 8\n\
      signature = 2048\n\
      seed = 1\n\
      events = 200000\n\
      report = \"r.txt\"\n\
      [[sphere]]\n\
      image = \"a.elf\"\n\
      memory = 4096\n\
      role = \"replay\"\n\
      strata = \"a.strata\"\n\
      account = \"b.txt\"\n";

const RACE_ACCOUNT: &[u8] =
    b"account: c 0 0 3, c 1 0 0, c 2 1 3, c 3 0 2, l 00000100 00000009, c 4 0 0, c 5 1 0, \
  t 0 0000001C ended:1 00000000 0 x5=9 x10=1, t 1 00000030 ended:0 00000000 0 x6=9, \
  m 00000000 9308100013050002130600007300000083220010930800007300000013, m 00000020 13039000232060109308000073, \
  m 00000100 09, end complete 6";

const RACE_REPORT: &[u8] =
    b"lines: g 9 0 0 chunk 3, g 11 0 0 serial 0, g 605 0 1 chunk 3, g 1458 0 0 chunk 2, \
  g 1471 0 0 serial 0, g 2890 0 1 serial 0, r Ran 6, r Closed 8, r Waiting 940, r Idle 145839, r Stopped 3024, \
  r NothingRun 2, r Granted 6, r NotTurn 172, r Drained 1, r Clean 1, r Already 5, r Retired 1, r NoCommit 43777, \
  r Placed 3, r Elsewhere 3, r NoThread 2682, r Ended 385, r FromLog 3145, events 200000, commits 6, s 0 complete 6";

const ON_ONE_CORE: &[Case] = &[
    Case {
        words: &["run", "plan.toml"],
        read: &[
            ("plan.toml", ONE_CORE),
            ("s.txt", b""),
            ("a.elf", APART),
            ("a.strata", APART_STRATA),
        ],
        status: Status::Done,
        said: b"events 22\ncommits 6\ns 0 complete 6\n",
        written: &[("b.txt", IN_THEIR_ORDER), ("r.txt", IN_TURN)],
    },
    Case {
        words: &["run", "plan.toml"],
        read: &[
            ("plan.toml", DRAWN),
            ("a.elf", APART),
            ("a.strata", APART_STRATA),
        ],
        status: Status::Done,
        said: b"events 200000\ncommits 6\ns 0 complete 6\n",
        written: &[("b.txt", IN_THEIR_ORDER), ("r.txt", DRAWN_REPORT)],
    },
    Case {
        words: &["run", "plan.toml"],
        read: &[
            ("plan.toml", DRAWN_RACE),
            ("a.elf", RACE),
            ("a.strata", RACE_STRATA),
        ],
        status: Status::Done,
        said: b"events 200000\ncommits 6\ns 0 complete 6\n",
        written: &[("b.txt", RACE_ACCOUNT), ("r.txt", RACE_REPORT)],
    },
];

const REFUSALS: &[Case] = &[
    Case {
        words: &["run", "plan.toml"],
        read: &[
            ("plan.toml", CONFLICT_PLAN),
            ("s.txt", b""),
            ("a.elf", RACE),
            ("a.strata", CONFLICT),
        ],
        status: Status::Grammar,
        said: b"refused strata 0 8 3\n",
        written: &[],
    },
    // That a commit doesn't fit is said before a conflict.
    Case {
        words: &["run", "plan.toml"],
        read: &[
            ("plan.toml", CONFLICT_PLAN),
            ("s.txt", b""),
            ("a.elf", RACE),
            ("a.strata", LEFT_OVER),
        ],
        status: Status::Grammar,
        said: b"refused strata 0 9 6\n",
        written: &[],
    },
    Case {
        words: &["run", "plan.toml"],
        read: &[
            ("plan.toml", CONFLICT_PLAN),
            ("s.txt", b""),
            ("a.elf", RACE),
            ("a.strata", b"DLRS\x01\x40"),
        ],
        status: Status::Grammar,
        said: b"refused strata 0 5 5\n",
        written: &[],
    },
    Case {
        words: &["run", "plan.toml"],
        read: &[
            ("plan.toml", CONFLICT_PLAN),
            ("s.txt", b""),
            ("a.elf", RACE),
        ],
        status: Status::Absent,
        said: b"absent a.strata\n",
        written: &[],
    },
];
