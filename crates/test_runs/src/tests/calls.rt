//! The calls of files that each command makes: each fails in turn, and then one past the last, which isn't made.
use super::in_strata::{APART, APART_STRATA, SECOND_FIRST, TWO_CORES};
use super::intervals::MIDDLE;
use super::queries::ROW;
use super::recording::{IMAGE, SCRIPT, SUMMARY};
use super::tails::{FROM_4, FROM_4_TOLD};
use super::tools::{DRILL, GENERATED_IMAGE, LOG_THAT_FITS, OVERFLOWED_LOG, THREE_INSTRUCTIONS};
use super::versions::MIGRATED;
use super::{Case, fails_at, hold_all, write_all};
use dl_files::{Files, GoodFiles, MemFiles};
use spec_program::status::Status;
use std::alloc::Global;
use std::process::Abort;
use std::test::Fail;

/// What comes out if no call fails, and the names to which the calls go, in their order.
struct Calls {
    case: Case,
    names: &'static [&'static str],
}

// A log that is read takes a call for each piece and one at its end, and a log that is written one to make the file and one for each
// piece. An image, strata, an input and a tail are read by one call.
const CALLS: &[Calls] = &[
    Calls {
        case: WITH_INPUT,
        names: &[
            "plan.toml",
            "s.txt",
            "in",
            "a.elf",
            "a.log",
            "a.log",
            "a.txt",
            "con",
        ],
    },
    Calls {
        case: IN_STRATA,
        names: &["plan.toml", "s.txt", "a.elf", "a.strata", "b.txt", "r.txt"],
    },
    Calls {
        case: TAIL,
        names: &["a.tail"],
    },
    Calls {
        case: OVERFLOWED_LOG,
        names: &["l.log", "l.log"],
    },
    Calls {
        case: LOG_THAT_FITS,
        names: &["a.elf", "a.log", "a.log"],
    },
    Calls {
        case: QUERY,
        names: &["a.elf", "a.log", "a.log"],
    },
    Calls {
        case: INTERVAL,
        names: &["a.elf", "a.log", "a.log"],
    },
    Calls {
        case: GENERATED_IMAGE,
        names: &["x.elf"],
    },
    Calls {
        case: DRILL,
        names: &[],
    },
    Calls {
        case: THREE_INSTRUCTIONS,
        names: &["a.s", "a.elf"],
    },
    Calls {
        case: MIGRATED,
        names: &["a.log", "a.log", "b.log", "b.log"],
    },
    Calls {
        case: STRATA,
        names: &["a.elf", "a.log", "a.log", "a.strata"],
    },
];

const WITH_INPUT: Case = Case {
    words: &["run", "plan.toml"],
    read: &[
        (
            "plan.toml",
            b"cores = 1\n\
              chunk = 100\n\
              buffer = 16\n\
              window = 2\n\
              signature = 64\n\
              script = \"s.txt\"\n\
              input = \"in\"\n\
              console = \"con\"\n\
              [[sphere]]\n\
              image = \"a.elf\"\n\
              memory = 4096\n\
              role = \"record\"\n\
              mode = \"order-size\"\n\
              log = \"a.log\"\n\
              account = \"a.txt\"\n",
        ),
        ("s.txt", SCRIPT),
        ("in", b"not asked for"),
        ("a.elf", IMAGE),
    ],
    status: Status::Done,
    said: SUMMARY,
    written: &[("con", b"")],
};

const IN_STRATA: Case = Case {
    words: &["run", "plan.toml"],
    read: &[
        ("plan.toml", TWO_CORES),
        ("s.txt", SECOND_FIRST),
        ("a.elf", APART),
        ("a.strata", APART_STRATA),
    ],
    status: Status::Done,
    said: b"events 28\ncommits 6\ns 0 complete 6\n",
    written: &[],
};

const TAIL: Case = Case {
    words: &["tail", "a.tail"],
    read: &[("a.tail", FROM_4)],
    status: Status::Done,
    said: FROM_4_TOLD,
    written: &[],
};

const QUERY: Case = Case {
    words: &["when", "a.elf", "4096", "a.log", "260", "0"],
    read: ROW,
    status: Status::Done,
    said: b"none\n",
    written: &[],
};

const INTERVAL: Case = Case {
    words: &["interval", "a.elf", "4096", "a.log", "3", "2", "4"],
    read: ROW,
    status: Status::Done,
    said: MIDDLE,
    written: &[],
};

const STRATA: Case = Case {
    words: &["strata", "a.elf", "4096", "a.log", "a.strata"],
    read: ROW,
    status: Status::Done,
    said: b"strata 6 74\n",
    written: &[],
};

#[test]
fn each_call_that_fails_ends_the_work(rt: HostRuntime) -> Result<(), Fail> {
    let alloc = rt.alloc();
    for calls in CALLS {
        for (call, name) in calls.names.iter().enumerate() {
            let line = format!(in alloc; "fault {name}\n")?;
            comes_to(
                &rt,
                alloc,
                &calls.case,
                call,
                Status::Fault,
                line.as_bytes(),
            )?;
        }
    }
    Ok(())
}

// So the next call that anyone makes fails.
#[test]
fn no_call_is_made_past_the_last(rt: HostRuntime) -> Result<(), Fail> {
    let alloc = rt.alloc();
    for calls in CALLS {
        let case = &calls.case;
        let mut files = comes_to(&rt, alloc, case, calls.names.len(), case.status, case.said)?;
        assert!(rt; files.create("past the last").is_err());
        hold_all(&rt, alloc, &mut files, case.written)?;
    }
    Ok(())
}

fn comes_to(
    rt: &impl Abort,
    alloc: Global,
    case: &Case,
    call: usize,
    status: Status,
    said: &[u8],
) -> Result<MemFiles, Fail> {
    let mut files = GoodFiles::new(alloc);
    write_all(alloc, &mut files, case.read)?;
    fails_at(rt, alloc, case.words, files, call as u64, status, said)
}
