//! Plans, scripts, images and words that are refused, and files that aren't there.
use super::recording::{PLAN, SCRIPT, three_instructions};
use super::{RUN, answer};
use dl_files::{Files, GoodFiles, MemFiles, MemSink};
use spec_program::status::Status;
use std::alloc::Global;
use std::process::Abort;
use std::test::Fail;

/// A file of the first recording that is changed, and what is then answered and said.
struct Changed {
    name: &'static str,
    bytes: &'static [u8],
    status: Status,
    said: &'static [u8],
}

#[test]
fn what_is_read_decides_the_answer(rt: HostRuntime) -> Result<(), Fail> {
    for case in CHANGED {
        let mut files = three_instructions(rt.alloc())?;
        files.write(case.name, case.bytes)?;
        answers(&rt, rt.alloc(), RUN, files, case.status, case.said)?;
    }
    Ok(())
}

fn answers(
    rt: &impl Abort,
    alloc: Global,
    words: &[&str],
    files: GoodFiles,
    status: Status,
    said: &[u8],
) -> Result<(), Fail> {
    let mut files = MemFiles::new(alloc, files, &[])?;
    let mut out = MemSink::new(alloc, &[])?;
    assert!(rt; answer(alloc, words, &mut files, &mut out) == status);
    assert!(rt; out.taken() == said);
    Ok(())
}

const CHANGED: &[Changed] = &[
    Changed {
        name: "s.txt",
        bytes: b"step x",
        status: Status::Grammar,
        said: b"refused script 1\n",
    },
    Changed {
        name: "s.txt",
        bytes: b"step 0\n\nhalt 0\n",
        status: Status::Grammar,
        said: b"refused script 3\n",
    },
    Changed {
        name: "a.elf",
        bytes: b"\x7fELF\x01\x01\x01\0\0\0\0\0\0\0\0\0\x02\0\xf3\0\x01\0\0\0\0\0\0\04\0\0\0\0\0\0\0\0\0\0\04\0 \0\x01\0\0\0\0\0\0",
        status: Status::Image,
        said: b"refused image 0 1\n",
    },
    Changed {
        name: "plan.toml",
        bytes: b"cores = 9\n",
        status: Status::Plan,
        said: b"refused plan 3\n",
    },
    Changed {
        name: "plan.toml",
        bytes: NINE_CORES,
        status: Status::Plan,
        said: b"refused plan 4\n",
    },
];

const NINE_CORES: &[u8] = b"cores = 9\n\
      chunk = 100\n\
      buffer = 16\n\
      window = 2\n\
      signature = 64\n\
      script = \"s.txt\"\n\
      report = \"r.txt\"\n\
      [[sphere]]\n\
      image = \"a.elf\"\n\
      memory = 4096\n\
      role = \"record\"\n\
      mode = \"order-size\"\n\
      log = \"a.log\"\n\
      account = \"a.txt\"\n";

/// Words, and what is answered and said if only the plan and the script are there.
struct Words {
    words: &'static [&'static str],
    status: Status,
    said: &'static [u8],
}

#[test]
fn words_and_absent_files_decide_the_answer(rt: HostRuntime) -> Result<(), Fail> {
    for case in WORDS {
        let files = plan_and_script(rt.alloc())?;
        answers(&rt, rt.alloc(), case.words, files, case.status, case.said)?;
    }
    Ok(())
}

fn plan_and_script(alloc: Global) -> Result<GoodFiles, Fail> {
    let mut files = GoodFiles::new(alloc);
    files.write("plan.toml", PLAN)?;
    files.write("s.txt", SCRIPT)?;
    Ok(files)
}

const WORDS: &[Words] = &[
    Words {
        words: &[],
        status: Status::Usage,
        said: b"usage\n",
    },
    Words {
        words: &["run"],
        status: Status::Usage,
        said: b"usage\n",
    },
    Words {
        words: &["run", "-x"],
        status: Status::Usage,
        said: b"usage\n",
    },
    Words {
        words: &["walk", "plan.toml"],
        status: Status::Usage,
        said: b"usage\n",
    },
    Words {
        words: &["run", "p", "q"],
        status: Status::Usage,
        said: b"usage\n",
    },
    Words {
        words: &["run", "p"],
        status: Status::Absent,
        said: b"absent p\n",
    },
    Words {
        words: &["run", "plan.toml"],
        status: Status::Absent,
        said: b"absent a.elf\n",
    },
];
