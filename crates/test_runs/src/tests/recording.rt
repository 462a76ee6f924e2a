//! A recording of three instructions: its plan, script and image, and what it writes and says; and the same with no event.
use super::{RUN, answer, answer_in_memory, hold_all};
use dl_files::{Files, GoodFiles, GoodSink, MemFiles, MemSink};
use spec_program::status::Status;
use std::alloc::Global;
use std::test::Fail;

pub(super) const PLAN: &[u8] = b"cores = 1\n\
      chunk = 100\n\
      buffer = 16\n\
      window = 2\n\
      signature = 64\n\
      script = \"s.txt\"\n\
      report = \"r.txt\"\n\
      [[sphere]]\n\
      image = \"a.elf\"\n\
      memory = 4096\n\
      role = \"record\"\n\
      mode = \"order-size\"\n\
      log = \"a.log\"\n\
      account = \"a.txt\"\n";

pub(super) const SCRIPT: &[u8] = b"step 0\nstep 0\nstep 0\nask 0\nstep 0\nask 0\n";

// addi x17, x0, 0; addi x10, x0, 7; ecall
pub(super) const IMAGE: &[u8] =
    b"\x7fELF\x01\x01\x01\0\0\0\0\0\0\0\0\0\x02\0\xf3\0\x01\0\0\0\0\0\0\04\0\0\0\0\0\0\0\0\0\0\04\0 \0\x01\0\0\0\0\0\
      \0\0\x01\0\0\0T\0\0\0\0\0\0\0\0\0\0\0\x0c\0\0\0\x0c\0\0\0\x07\0\0\0\x04\0\0\0\x93\x08\0\0\x13\x05p\0s\0\0\0";

pub(super) const LOG: &[u8] =
    b"DLRN\x01\0\0\0d\0\0\0\x02\0\0\0\x02\0\0\0\0\x02\0\0\0\x02\0\0\0\0\0\0\0\0\0\0\0\0\0\0\0";

pub(super) const ACCOUNT: &[u8] = b"c 0 0 2\n\
      c 1 0 0\n\
      t 0 0000000C ended:7 00000000 0 00000000 00000000 00000000 00000000 00000000 00000000 00000000 00000000 \
      00000000 00000007 00000000 00000000 00000000 00000000 00000000 00000000 00000000 00000000 00000000 00000000 \
      00000000 00000000 00000000 00000000 00000000 00000000 00000000 00000000 00000000 00000000 00000000\n\
      m 00000000 9308000013057000730000000000000000000000000000000000000000000000\n\
      end complete 2\n";

const REPORT: &[u8] =
    b"g 3 0 0 chunk 2\ng 5 0 0 serial 0\nr Ran 2\nr Closed 2\nr Granted 2\nevents 6\ncommits 2\ns 0 record 2\n";

pub(super) const SUMMARY: &[u8] = b"events 6\ncommits 2\ns 0 record 2\n";

// What the first recording writes.
pub(super) const RECORDED: &[(&str, &[u8])] = &[
    ("a.log", LOG),
    ("a.txt", ACCOUNT),
    ("r.txt", REPORT),
];

pub(super) fn three_instructions(alloc: Global) -> Result<GoodFiles, Fail> {
    let mut files = GoodFiles::new(alloc);
    files.write("plan.toml", PLAN)?;
    files.write("s.txt", SCRIPT)?;
    files.write("a.elf", IMAGE)?;
    Ok(files)
}

#[test]
fn three_instructions_are_recorded(rt: HostRuntime) -> Result<(), Fail> {
    let alloc = rt.alloc();
    let mut files = MemFiles::new(alloc, three_instructions(alloc)?, &[])?;
    let mut out = MemSink::new(alloc, &[])?;
    assert!(rt; answer(alloc, RUN, &mut files, &mut out) == Status::Done);
    assert!(rt; out.taken() == SUMMARY);
    hold_all(&rt, alloc, &mut files, RECORDED)?;
    Ok(())
}

// No event comes, so nothing is committed, and the report is its summary.
#[test]
fn an_empty_script_records_nothing(rt: HostRuntime) -> Result<(), Fail> {
    let alloc = rt.alloc();
    let mut files = three_instructions(alloc)?;
    files.write("s.txt", b"")?;
    let mut out = GoodSink::new(alloc);
    assert!(rt; answer_in_memory(alloc, RUN, &mut files, &mut out) == Status::Done);
    assert!(rt; out.taken() == EMPTY_SUMMARY);
    hold_all(&rt, alloc, &mut files, NOTHING_RECORDED)?;
    Ok(())
}

const NOTHING_RECORDED: &[(&str, &[u8])] = &[
    ("a.log", EMPTY_LOG),
    ("a.txt", EMPTY_ACCOUNT),
    ("r.txt", EMPTY_SUMMARY),
];

const EMPTY_LOG: &[u8] = b"DLRN\x01\0\0\0d\0\0\0\0\0\0\0\0\0\0\0\0\0\0\0\0\0\0\0\0\0\0\0\0\0\0\0";

pub(super) const EMPTY_ACCOUNT: &[u8] =
    b"t 0 00000000 live 00000000 0 00000000 00000000 00000000 00000000 00000000 00000000 00000000 00000000 00000000 \
      00000000 00000000 00000000 00000000 00000000 00000000 00000000 00000000 00000000 00000000 00000000 00000000 \
      00000000 00000000 00000000 00000000 00000000 00000000 00000000 00000000 00000000 00000000\n\
      m 00000000 9308000013057000730000000000000000000000000000000000000000000000\n\
      end complete 0\n";

const EMPTY_SUMMARY: &[u8] = b"events 0\ncommits 0\ns 0 record 0\n";
