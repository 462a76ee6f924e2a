//! A script that is read in two pieces and a log that is written and read in two, in memory and over real files; and calls that
//! fail while they are read and written.
use super::{answer, fails_at};
use dl_files::{Files, GoodFiles, MemSink, RealFiles};
use spec_program::status::Status;
use std::alloc::Global;
use std::fs;
use std::process::Abort;
use std::test::Fail;

const PLAN: &[u8] = b"cores = 1\n\
      chunk = 100\n\
      buffer = 16\n\
      window = 2\n\
      signature = 64\n\
      script = \"loop.txt\"\n\
      [[sphere]]\n\
      image = \"loop.elf\"\n\
      memory = 4096\n\
      role = \"record\"\n\
      mode = \"order-size\"\n\
      log = \"loop.log\"\n\
      account = \"account.txt\"\n";

// jal x0, 0
const LOOP: &[u8] =
    b"\x7fELF\x01\x01\x01\0\0\0\0\0\0\0\0\0\x02\0\xf3\0\x01\0\0\0\0\0\0\04\0\0\0\0\0\0\0\0\0\0\04\0 \0\x01\0\0\0\0\0\
      \0\0\x01\0\0\0T\0\0\0\0\0\0\0\0\0\0\0\x04\0\0\0\x04\0\0\0\x07\0\0\0\x04\0\0\0o\0\0\0";

// The commits, of one instruction each: an even number.
const COMMITS: usize = 2000;

const RUN: &[&str] = &["run", "loop.toml"];

const SUMMARY: &[u8] = b"events 6000\ncommits 2000\ns 0 record 2000\n";

const WALK: &[&str] = &["walk", "loop.elf", "4096", "loop.log"];

const INSPECT: &[&str] = &["inspect", "loop.log"];

// 38,000 bytes.
fn script(alloc: Global) -> Result<Vec<u8>, Fail> {
    let mut lines = Vec::new(alloc);
    for _ in 0..COMMITS {
        lines.extend_from_slice(b"step 0\ncut 0\nask 0\n")?;
    }
    Ok(lines)
}

// Half a byte of the order for each commit, and two bytes of its size: 5,036 bytes with all counts.
fn long_log(alloc: Global) -> Result<Vec<u8>, Fail> {
    let mut bytes = Vec::from_slice(alloc, b"DLRN\x01\0\0\0d\0\0\0\xd0\x07\0\0\xd0\x07\0\0")?;
    for _ in 0..COMMITS / 2 {
        bytes.push(0)?;
    }
    bytes.extend_from_slice(b"\xd0\x07\0\0")?;
    for _ in 0..COMMITS {
        bytes.extend_from_slice(b"\x01\0")?;
    }
    bytes.extend_from_slice(b"\0\0\0\0\0\0\0\0\0\0\0\0")?;
    Ok(bytes)
}

#[test]
fn a_log_of_two_pieces_comes_round_in_memory(rt: HostRuntime) -> Result<(), Fail> {
    let alloc = rt.alloc();
    comes_round(&rt, alloc, &mut planned(alloc)?)
}

fn planned(alloc: Global) -> Result<GoodFiles, Fail> {
    let mut files = GoodFiles::new(alloc);
    files.write("loop.toml", PLAN)?;
    files.write("loop.txt", &script(alloc)?)?;
    files.write("loop.elf", LOOP)?;
    Ok(files)
}

#[test]
fn a_log_of_two_pieces_comes_round_over_real_files(rt: HostRuntime) -> Result<(), Fail> {
    let alloc = rt.alloc();
    fs::write(&rt, "loop.toml", PLAN)?;
    fs::write(&rt, "loop.txt", &script(alloc)?)?;
    fs::write(&rt, "loop.elf", LOOP)?;
    let mut files = RealFiles::new(rt.clone()?);
    comes_round(&rt, alloc, &mut files)
}

// The log that is recorded has the worked bytes, and its walk gives the account that was recorded.
fn comes_round<F: Files>(rt: &impl Abort, alloc: Global, files: &mut F) -> Result<(), Fail> {
    says(rt, alloc, RUN, files, SUMMARY)?;
    let recorded = files.read(alloc, "loop.log")?;
    assert!(rt; recorded.as_slice() == long_log(alloc)?.as_slice());
    let account = files.read(alloc, "account.txt")?;
    says(rt, alloc, WALK, files, account.as_slice())
}

fn says<F: Files>(
    rt: &impl Abort,
    alloc: Global,
    words: &[&str],
    files: &mut F,
    said: &[u8],
) -> Result<(), Fail> {
    let mut out = MemSink::new(alloc, &[])?;
    assert!(rt; answer(alloc, words, files, &mut out) == Status::Done);
    assert!(rt; out.taken() == said);
    Ok(())
}

/// Words, the call of the files that fails, and what is then answered and said.
struct Failing {
    words: &'static [&'static str],
    call: u64,
    status: Status,
    said: &'static [u8],
}

// A log of two pieces is read by three calls, the last at its end, and then by none: so the next call writes, or isn't made. If
// the log's first field is bad, the second piece is never asked for.
const FAILING: &[Failing] = &[
    Failing {
        words: INSPECT,
        call: 0,
        status: Status::Fault,
        said: b"fault loop.log\n",
    },
    Failing {
        words: INSPECT,
        call: 1,
        status: Status::Fault,
        said: b"fault loop.log\n",
    },
    Failing {
        words: INSPECT,
        call: 2,
        status: Status::Fault,
        said: b"fault loop.log\n",
    },
    Failing {
        words: WALK,
        call: 0,
        status: Status::Fault,
        said: b"fault loop.elf\n",
    },
    Failing {
        words: WALK,
        call: 1,
        status: Status::Fault,
        said: b"fault loop.log\n",
    },
    Failing {
        words: WALK,
        call: 2,
        status: Status::Fault,
        said: b"fault loop.log\n",
    },
    Failing {
        words: WALK,
        call: 3,
        status: Status::Fault,
        said: b"fault loop.log\n",
    },
    Failing {
        words: &["asm", "a.s", "made.elf"],
        call: 0,
        status: Status::Fault,
        said: b"fault a.s\n",
    },
    Failing {
        words: &["asm", "a.s", "made.elf"],
        call: 1,
        status: Status::Fault,
        said: b"fault made.elf\n",
    },
    Failing {
        words: &["make", "6", "made.elf"],
        call: 0,
        status: Status::Fault,
        said: b"fault made.elf\n",
    },
    Failing {
        words: &["migrate", "loop.log", "new.log"],
        call: 3,
        status: Status::Fault,
        said: b"fault new.log\n",
    },
    Failing {
        words: &["interval", "loop.elf", "4096", "loop.log", "9", "0", "9"],
        call: 3,
        status: Status::Fault,
        said: b"fault loop.log\n",
    },
    Failing {
        words: &["strata", "loop.elf", "4096", "loop.log", "a.strata"],
        call: 4,
        status: Status::Fault,
        said: b"fault a.strata\n",
    },
    Failing {
        words: &["when", "loop.elf", "4096", "loop.log", "0", "111"],
        call: 4,
        status: Status::Done,
        said: b"none\n",
    },
    Failing {
        words: &["inspect", "bad.log"],
        call: 1,
        status: Status::Grammar,
        said: b"refused log 0 2 0\n",
    },
];

#[test]
fn a_call_that_fails_ends_the_other_commands(rt: HostRuntime) -> Result<(), Fail> {
    for case in FAILING {
        let files = read_files(rt.alloc())?;
        fails_at(
            &rt,
            rt.alloc(),
            case.words,
            files,
            case.call,
            case.status,
            case.said,
        )?;
    }
    Ok(())
}

// The names to which the calls of the run go: its script is read by two and its log is written by three, the first of which makes
// the file.
const RUN_NAMES: &[&str] = &[
    "loop.toml",
    "loop.txt",
    "loop.txt",
    "loop.elf",
    "loop.log",
    "loop.log",
    "loop.log",
    "account.txt",
];

#[test]
fn each_call_that_fails_ends_a_run_of_two_pieces(rt: HostRuntime) -> Result<(), Fail> {
    let alloc = rt.alloc();
    for (call, name) in RUN_NAMES.iter().enumerate() {
        let line = format!(in alloc; "fault {name}\n")?;
        let files = planned(alloc)?;
        fails_at(
            &rt,
            alloc,
            RUN,
            files,
            call as u64,
            Status::Fault,
            line.as_bytes(),
        )?;
    }
    Ok(())
}

// So the next call that anyone makes fails.
#[test]
fn no_call_is_made_past_the_last_of_a_run_of_two_pieces(rt: HostRuntime) -> Result<(), Fail> {
    let alloc = rt.alloc();
    let past = RUN_NAMES.len() as u64;
    let mut files = fails_at(
        &rt,
        alloc,
        RUN,
        planned(alloc)?,
        past,
        Status::Done,
        SUMMARY,
    )?;
    assert!(rt; files.create("past the last").is_err());
    Ok(())
}

fn read_files(alloc: Global) -> Result<GoodFiles, Fail> {
    let mut files = GoodFiles::new(alloc);
    let mut bytes = long_log(alloc)?;
    files.write("loop.log", &bytes)?;
    bytes.insert(0, 0)?;
    files.write("bad.log", &bytes)?;
    files.write("loop.elf", LOOP)?;
    files.write("a.s", b"ecall\n")?;
    Ok(files)
}
