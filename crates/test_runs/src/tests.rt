//! The program over files and sinks in memory, and once over the real ones.
use dl_commands::{delorean, delorean_in_memory};
use dl_files::{Files, GoodFiles, GoodSink, MemFiles, MemSink, Sink};
use short::whole;
use spec_program::status::Status;
use std::alloc::Global;
use std::process::Abort;
use std::test::Fail;

mod calls;
mod depths;
mod failures;
mod in_strata;
mod instructions;
mod intervals;
mod log_reading;
mod narrow;
mod pieces;
mod queries;
mod real_files;
mod recording;
mod refusals;
mod rows;
mod short;
mod strata;
mod tails;
mod tools;
mod versions;

const RUN: &[&str] = &["run", "plan.toml"];

// What the program answers.
fn answer<F: Files, O: Sink>(alloc: Global, words: &[&str], files: &mut F, out: &mut O) -> Status {
    delorean(alloc, words, files, out)
}

fn answer_in_memory(
    alloc: Global,
    words: &[&str],
    files: &mut GoodFiles,
    out: &mut GoodSink,
) -> Status {
    delorean_in_memory(alloc, words, files, out)
}

fn holds<F: Files>(alloc: Global, files: &mut F, name: &str, want: &[u8]) -> bool {
    match files.read(alloc, name) {
        Ok(bytes) => bytes.as_slice() == want,
        Err(_) => false,
    }
}

fn hold_all<F: Files>(
    rt: &impl Abort,
    alloc: Global,
    files: &mut F,
    written: &[(&str, &[u8])],
) -> Result<(), Fail> {
    for (name, text) in written {
        let want = whole(alloc, text)?;
        assert!(rt; holds(alloc, files, name, want.as_slice()), "{name}");
    }
    Ok(())
}

// The call of the files that has this number fails, and this is answered and said.
fn fails_at(
    rt: &impl Abort,
    alloc: Global,
    words: &[&str],
    files: GoodFiles,
    call: u64,
    status: Status,
    said: &[u8],
) -> Result<MemFiles, Fail> {
    let mut files = MemFiles::new(alloc, files, &[call])?;
    let mut out = MemSink::new(alloc, &[])?;
    assert!(rt; answer(alloc, words, &mut files, &mut out) == status);
    assert!(rt; out.taken() == whole(alloc, said)?.as_slice());
    Ok(files)
}

fn write_all<F: Files>(alloc: Global, files: &mut F, read: &[(&str, &[u8])]) -> Result<(), Fail> {
    for (name, text) in read {
        files.write(name, whole(alloc, text)?.as_slice())?;
    }
    Ok(())
}

/// Words, the files that are read, what is answered and said, and the files that are written. The texts may be [short](short).
struct Case {
    words: &'static [&'static str],
    read: &'static [(&'static str, &'static [u8])],
    status: Status,
    said: &'static [u8],
    written: &'static [(&'static str, &'static [u8])],
}

fn come_out(rt: &impl Abort, alloc: Global, cases: &[Case]) -> Result<(), Fail> {
    for case in cases {
        comes_out(rt, alloc, case)?;
    }
    Ok(())
}

fn comes_out(rt: &impl Abort, alloc: Global, case: &Case) -> Result<(), Fail> {
    let mut files = GoodFiles::new(alloc);
    write_all(alloc, &mut files, case.read)?;
    let mut out = GoodSink::new(alloc);
    assert!(rt; answer_in_memory(alloc, case.words, &mut files, &mut out) == case.status);
    assert!(rt; out.taken() == whole(alloc, case.said)?.as_slice());
    hold_all(rt, alloc, &mut files, case.written)
}
