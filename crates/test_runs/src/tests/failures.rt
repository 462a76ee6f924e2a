//! Calls that fail while a plan is run: what is then said, and which files are whole.
use super::recording::{ACCOUNT, EMPTY_ACCOUNT, LOG, RECORDED, three_instructions};
use super::{RUN, answer, holds};
use dl_files::{Files, GoodFiles, MemFiles, MemSink};
use spec_program::status::Status;
use std::alloc::Global;
use std::process::Abort;
use std::test::Fail;

/// What is answered and said if calls fail, and how many of the files are then whole.
#[derive(Clone, Copy)]
struct Left {
    status: Status,
    said: &'static [u8],
    whole: usize,
}

// A call of the files that fails, what is then said, and how many files are whole.
type Fault = (u64, &'static [u8], usize);

fn fault(said: &'static [u8], whole: usize) -> Left {
    Left {
        status: Status::Fault,
        said,
        whole,
    }
}

// Three files are read and three are written, the log by two calls, and the text is put in one call. Each call fails in
// turn, and then a put after a failed write.
#[test]
fn a_call_that_fails_ends_the_work(rt: HostRuntime) -> Result<(), Fail> {
    let alloc = rt.alloc();
    for (call, said, whole) in FAULTS {
        let files = MemFiles::new(alloc, three_instructions(alloc)?, &[*call])?;
        ends(&rt, alloc, files, &[], &fault(said, *whole), RECORDED)?;
    }
    for (calls, left) in FAULTS_OF_SINK {
        let files = MemFiles::new(alloc, three_instructions(alloc)?, calls)?;
        ends(&rt, alloc, files, &[0], left, RECORDED)?;
    }
    Ok(())
}

const FAULTS: &[Fault] = &[
    (0, b"fault plan.toml\n", 0),
    (1, b"fault s.txt\n", 0),
    (2, b"fault a.elf\n", 0),
    (3, b"fault a.log\n", 0),
    (4, b"fault a.log\n", 0),
    (5, b"fault a.txt\n", 1),
    (6, b"fault r.txt\n", 2),
];

// The calls of the files that fail when the first put fails too.
const FAULTS_OF_SINK: &[(&[u64], Left)] = &[
    (
        &[],
        Left {
            status: Status::Sink,
            said: b"",
            whole: 3,
        },
    ),
    (
        &[3],
        Left {
            status: Status::Fault,
            said: b"",
            whole: 0,
        },
    ),
];

// Two spheres are recorded and a third is replayed, whose log is read by two calls, the second at its end; seven files are
// written. Each call fails in turn.
#[test]
fn a_call_that_fails_ends_the_work_of_three_spheres(rt: HostRuntime) -> Result<(), Fail> {
    let alloc = rt.alloc();
    for (call, said, whole) in FAULTS_OF_THREE {
        let files = MemFiles::new(alloc, three_spheres(alloc)?, &[*call])?;
        ends(&rt, alloc, files, &[], &fault(said, *whole), THREE_RECORDED)?;
    }
    Ok(())
}

fn three_spheres(alloc: Global) -> Result<GoodFiles, Fail> {
    let mut files = three_instructions(alloc)?;
    files.write("plan.toml", THREE_SPHERES)?;
    files.write("c.log", LOG)?;
    Ok(files)
}

// On one core: a sphere that the script records, one that no event reaches, and one that replays what the first records.
const THREE_SPHERES: &[u8] = b"cores = 1\n\
      chunk = 100\n\
      buffer = 16\n\
      window = 2\n\
      signature = 64\n\
      script = \"s.txt\"\n\
      console = \"con\"\n\
      report = \"r.txt\"\n\
      [[sphere]]\n\
      image = \"a.elf\"\n\
      memory = 4096\n\
      role = \"record\"\n\
      mode = \"order-size\"\n\
      log = \"a.log\"\n\
      account = \"a.txt\"\n\
      [[sphere]]\n\
      image = \"a.elf\"\n\
      memory = 4096\n\
      role = \"record\"\n\
      mode = \"picolog\"\n\
      log = \"b.log\"\n\
      account = \"b.txt\"\n\
      [[sphere]]\n\
      image = \"a.elf\"\n\
      memory = 4096\n\
      role = \"replay\"\n\
      log = \"c.log\"\n\
      account = \"c.txt\"\n";

const FAULTS_OF_THREE: &[Fault] = &[
    (4, b"fault a.elf\n", 0),
    (5, b"fault c.log\n", 0),
    (6, b"fault c.log\n", 0),
    (7, b"fault a.log\n", 0),
    (8, b"fault a.log\n", 0),
    (9, b"fault a.txt\n", 1),
    (10, b"fault b.log\n", 2),
    (11, b"fault b.log\n", 2),
    (12, b"fault b.txt\n", 3),
    (13, b"fault c.txt\n", 4),
    (14, b"fault con\n", 5),
    (15, b"fault r.txt\n", 6),
];

const THREE_RECORDED: &[(&str, &[u8])] = &[
    ("a.log", LOG),
    ("a.txt", ACCOUNT),
    ("b.log", EMPTY_PICOLOG),
    ("b.txt", EMPTY_ACCOUNT),
    ("c.txt", ACCOUNT),
    ("con", b""),
    ("r.txt", THREE_REPORT),
];

const EMPTY_PICOLOG: &[u8] =
    b"DLRN\x01\x02\0\0d\0\0\0\0\0\0\0\0\0\0\0\0\0\0\0\0\0\0\0\0\0\0\0\0\0\0\0";

const THREE_REPORT: &[u8] = b"g 3 0 0 chunk 2\n\
      g 5 0 0 serial 0\n\
      g 9 2 0 chunk 2\n\
      g 11 2 0 serial 0\n\
      r Ran 3\n\
      r Closed 4\n\
      r Granted 4\n\
      r Placed 1\n\
      events 12\n\
      commits 4\n\
      s 0 record 2\n\
      s 1 record 0\n\
      s 2 complete 2\n";

fn ends(
    rt: &impl Abort,
    alloc: Global,
    mut files: MemFiles,
    puts: &[u64],
    left: &Left,
    written: &[(&str, &[u8])],
) -> Result<(), Fail> {
    let mut out = MemSink::new(alloc, puts)?;
    assert!(rt; answer(alloc, RUN, &mut files, &mut out) == left.status);
    assert!(rt; out.taken() == left.said);
    are_left(rt, alloc, &mut files, left.whole, written);
    Ok(())
}

// The names before the one that failed are written whole, and those after it aren't there.
fn are_left<F: Files>(
    rt: &impl Abort,
    alloc: Global,
    files: &mut F,
    whole: usize,
    written: &[(&str, &[u8])],
) {
    for (i, (name, want)) in written.iter().enumerate() {
        if i < whole {
            assert!(rt; holds(alloc, files, name, want), "{name}");
        }
        if i > whole {
            assert!(rt; files.read(alloc, name).is_err(), "{name}");
        }
    }
}
