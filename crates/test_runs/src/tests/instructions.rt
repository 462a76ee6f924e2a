//! Recordings of instructions at their edge cases.
use super::recording::PLAN;
use super::{RUN, answer_in_memory, holds};
use dl_files::{Files, GoodFiles, GoodSink};
use spec_program::status::Status;
use std::alloc::Global;
use std::process::Abort;
use std::test::Fail;

// DIV and REM of -2^31 by -1; DIV, DIVU, REM and REMU of 7 by 0; MULHSU twice and MULHU. The results are in x11 to x20.
const DIVISION_IMAGE: &[u8] =
    b"\x7fELF\x01\x01\x01\0\0\0\0\0\0\0\0\0\x02\0\xf3\0\x01\0\0\0\0\0\0\04\0\0\0\0\0\0\0\0\0\0\04\0 \0\x01\0\0\0\0\0\
      \0\0\x01\0\0\0T\0\0\0\0\0\0\0\0\0\0\0\xbc\0\0\0\xbc\0\0\0\x07\0\0\0\x04\0\0\0\xb7\x02\0\x80\x93\x82\x02\07\x03\
      \0\0\x13\x03\xf3\xff\xb3\xc5b\x02\xb7\x02\0\x80\x93\x82\x02\07\x03\0\0\x13\x03\xf3\xff3\xe6b\x02\xb7\x02\0\0\
      \x93\x82r\07\x03\0\0\x13\x03\x03\0\xb3\xc6b\x02\xb7\x02\0\0\x93\x82r\07\x03\0\0\x13\x03\x03\03\xd7b\x02\xb7\
      \x02\0\0\x93\x82r\07\x03\0\0\x13\x03\x03\0\xb3\xe7b\x02\xb7\x02\0\0\x93\x82r\07\x03\0\0\x13\x03\x03\03\xf8b\
      \x02\xb7\x02\0\x80\x93\x82\x02\07\x03\0\0\x13\x03\xf3\xff\xb3\xa8b\x02\xb7\x02\0\0\x93\x82\xf2\xff7\x03\0\0\
      \x13\x03\xf3\xff3\xa9b\x02\xb7\x02\0\0\x93\x82\xf2\xff7\x03\0\0\x13\x03\xf3\xff\xb3\xb9b\x02\x93\x08\0\0s\0\0\
      \0";

const DIVISION_SCRIPT: &[u8] = b"step 0\n\
      step 0\n\
      step 0\n\
      step 0\n\
      step 0\n\
      step 0\n\
      step 0\n\
      step 0\n\
      step 0\n\
      step 0\n\
      step 0\n\
      step 0\n\
      step 0\n\
      step 0\n\
      step 0\n\
      step 0\n\
      step 0\n\
      step 0\n\
      step 0\n\
      step 0\n\
      step 0\n\
      step 0\n\
      step 0\n\
      step 0\n\
      step 0\n\
      step 0\n\
      step 0\n\
      step 0\n\
      step 0\n\
      step 0\n\
      step 0\n\
      step 0\n\
      step 0\n\
      step 0\n\
      step 0\n\
      step 0\n\
      step 0\n\
      step 0\n\
      step 0\n\
      step 0\n\
      step 0\n\
      step 0\n\
      step 0\n\
      step 0\n\
      step 0\n\
      step 0\n\
      step 0\n\
      ask 0\n\
      step 0\n\
      ask 0\n";

const DIVISION_LOG: &[u8] =
    b"DLRN\x01\0\0\0d\0\0\0\x02\0\0\0\x02\0\0\0\0\x02\0\0\0.\0\0\0\0\0\0\0\0\0\0\0\0\0\0\0";

const DIVISION_ACCOUNT: &[u8] = b"c 0 0 46\n\
      c 1 0 0\n\
      t 0 000000BC ended:0 00000000 0 00000000 00000000 00000000 00000000 FFFFFFFF FFFFFFFF 00000000 00000000 \
      00000000 00000000 80000000 00000000 FFFFFFFF FFFFFFFF 00000007 00000007 00000000 FFFFFFFF FFFFFFFE 00000000 \
      00000000 00000000 00000000 00000000 00000000 00000000 00000000 00000000 00000000 00000000 00000000\n\
      m 00000000 B702008093820200370300001303F3FFB3C56202B70200809382020037030000\n\
      m 00000020 1303F3FF33E66202B7020000938272003703000013030300B3C66202B7020000\n\
      m 00000040 93827200370300001303030033D76202B7020000938272003703000013030300\n\
      m 00000060 B3E76202B702000093827200370300001303030033F86202B702008093820200\n\
      m 00000080 370300001303F3FFB3A86202B70200009382F2FF370300001303F3FF33A96202\n\
      m 000000A0 B70200009382F2FF370300001303F3FFB3B96202930800007300000000000000\n\
      end complete 2\n";

// addi x5, x0, 6; jalr x1, 0(x5): it faults with cause 0, and x1 isn't written.
const JUMP_IMAGE: &[u8] =
    b"\x7fELF\x01\x01\x01\0\0\0\0\0\0\0\0\0\x02\0\xf3\0\x01\0\0\0\0\0\0\04\0\0\0\0\0\0\0\0\0\0\04\0 \0\x01\0\0\0\0\0\
      \0\0\x01\0\0\0T\0\0\0\0\0\0\0\0\0\0\0\x08\0\0\0\x08\0\0\0\x07\0\0\0\x04\0\0\0\x93\x02`\0\xe7\x80\x02\0";

const JUMP_SCRIPT: &[u8] = b"step 0\nstep 0\nask 0\nstep 0\nask 0\n";

const JUMP_LOG: &[u8] =
    b"DLRN\x01\0\0\0d\0\0\0\x02\0\0\0\x02\0\0\0\0\x02\0\0\0\x01\0\0\0\0\0\0\0\0\0\0\0\0\0\0\0";

const JUMP_ACCOUNT: &[u8] = b"c 0 0 1\n\
      c 1 0 0\n\
      t 0 00000004 fault:0 00000000 0 00000000 00000000 00000000 00000000 00000006 00000000 00000000 00000000 \
      00000000 00000000 00000000 00000000 00000000 00000000 00000000 00000000 00000000 00000000 00000000 00000000 \
      00000000 00000000 00000000 00000000 00000000 00000000 00000000 00000000 00000000 00000000 00000000\n\
      m 00000000 93026000E7800200000000000000000000000000000000000000000000000000\n\
      end complete 2\n";

struct Recording {
    image: &'static [u8],
    script: &'static [u8],
    log: &'static [u8],
    account: &'static [u8],
}

const RECORDINGS: &[Recording] = &[
    Recording {
        image: DIVISION_IMAGE,
        script: DIVISION_SCRIPT,
        log: DIVISION_LOG,
        account: DIVISION_ACCOUNT,
    },
    Recording {
        image: JUMP_IMAGE,
        script: JUMP_SCRIPT,
        log: JUMP_LOG,
        account: JUMP_ACCOUNT,
    },
];

#[test]
fn instructions_at_their_edges(rt: HostRuntime) -> Result<(), Fail> {
    for recording in RECORDINGS {
        is_recorded(&rt, rt.alloc(), recording)?;
    }
    Ok(())
}

fn is_recorded(rt: &impl Abort, alloc: Global, recording: &Recording) -> Result<(), Fail> {
    let mut files = of_instructions(alloc, recording)?;
    let mut out = GoodSink::new(alloc);
    assert!(rt; answer_in_memory(alloc, RUN, &mut files, &mut out) == Status::Done);
    assert!(rt; holds(alloc, &mut files, "a.log", recording.log));
    assert!(rt; holds(alloc, &mut files, "a.txt", recording.account));
    Ok(())
}

fn of_instructions(alloc: Global, recording: &Recording) -> Result<GoodFiles, Fail> {
    let mut files = GoodFiles::new(alloc);
    files.write("plan.toml", PLAN)?;
    files.write("s.txt", recording.script)?;
    files.write("a.elf", recording.image)?;
    Ok(files)
}
