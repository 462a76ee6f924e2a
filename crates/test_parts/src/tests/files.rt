//! Tables of calls, some of which fail, of each kind of files and of sink, through the traits.
ghost use Rattle.std.specs.Prelude.{IsErrOf};
ghost use Rattle.dl_files.specs.Count.{Rose};

use dl_files::{
    Faults, FileError, Files, GoodFiles, GoodSink, MemFiles, MemSink, RealFiles, Sink, SinkError,
    StdSink,
};
use std::alloc::Global;
use std::fs;
use std::process::Abort;
use std::test::Fail;

fn copy<F: Files>(alloc: Global, files: &mut F, from: &str, to: &str) -> Result<(), FileError>
    ensures fault { IsErrOf result FileError.Failed → Rose (F.seen files.old).faults (F.seen files.new).faults }
{
    let bytes = files.read(alloc, from)?;
    files.write(to, bytes.as_slice())
}

// What is proved of any files shows that good ones don't fail.
fn copy_good(alloc: Global, files: &mut GoodFiles, from: &str, to: &str) -> Result<(), FileError>
    ensures { IsErrOf result FileError.Failed → ⊥ }
{
    copy(alloc, files, from, to)
}

#[derive(Clone, Copy)]
enum Call {
    Read,
    ReadAt(u64),
    Write(&'static [u8]),
    Create,
    Append(&'static [u8]),
    CopyTo(&'static str),
}

fn answer<F: Files>(
    alloc: Global,
    files: &mut F,
    call: Call,
    name: &str,
) -> Result<Vec<u8>, FileError> {
    match call {
        Call::Read => files.read(alloc, name),
        Call::ReadAt(offset) => read_four(alloc, files, name, offset),
        Call::Write(bytes) => no_bytes(alloc, files.write(name, bytes)),
        Call::Create => no_bytes(alloc, files.create(name)),
        Call::Append(bytes) => no_bytes(alloc, files.append(name, bytes)),
        Call::CopyTo(other) => no_bytes(alloc, copy(alloc, files, name, other)),
    }
}

fn read_four<F: Files>(
    alloc: Global,
    files: &mut F,
    name: &str,
    offset: u64,
) -> Result<Vec<u8>, FileError> {
    let mut piece = [0; 4];
    let count = files.read_at(name, offset, &mut piece)?;
    Ok(Vec::from_slice(alloc, &piece[..count])?)
}

fn no_bytes(alloc: Global, done: Result<(), FileError>) -> Result<Vec<u8>, FileError> {
    match done {
        Ok(()) => Ok(Vec::new(alloc)),
        Err(error) => Err(error),
    }
}

fn is_answer(got: &Result<Vec<u8>, FileError>, want: Result<&[u8], FileError>) -> bool {
    match (got, want) {
        (Ok(got), Ok(want)) => got.as_slice() == want,
        (Err(got), Err(want)) => *got == want,
        _ => false,
    }
}

// A call, its name, what it answers, and the count of all faults after it.
type Step = (Call, &'static str, Result<&'static [u8], FileError>, u64);

fn follow<F: Files>(rt: &impl Abort, alloc: Global, files: &mut F, steps: &[Step]) {
    for (call, name, want, faults) in steps {
        let got = answer(alloc, files, *call, name);
        let is_so = is_answer(&got, *want) && files.faults().all == *faults;
        assert!(rt; is_so, "{name}, {faults} faults");
    }
}

// Any files, with none of these names there before.
const KEPT: &[Step] = &[
    (Call::Write(b"one"), "dl_files_a", Ok(b""), 0),
    (Call::Write(b"longer"), "dl_files_b", Ok(b""), 0),
    (Call::Read, "dl_files_b", Ok(b"longer"), 0),
    (Call::CopyTo("dl_files_b"), "dl_files_a", Ok(b""), 0),
    (Call::Read, "dl_files_b", Ok(b"one"), 0),
    (Call::Append(b"two"), "dl_files_a", Ok(b""), 0),
    (Call::Read, "dl_files_a", Ok(b"onetwo"), 0),
    (Call::ReadAt(1), "dl_files_a", Ok(b"netw"), 0),
    (Call::ReadAt(4), "dl_files_a", Ok(b"wo"), 0),
    (Call::ReadAt(6), "dl_files_a", Ok(b""), 0),
    (Call::ReadAt(u64::MAX), "dl_files_a", Ok(b""), 0),
    (Call::Create, "dl_files_a", Ok(b""), 0),
    (Call::Read, "dl_files_a", Ok(b""), 0),
    (Call::Append(b"new"), "dl_files_c", Ok(b""), 0),
    (Call::Read, "dl_files_c", Ok(b"new"), 0),
    (Call::Create, "dl_files_d", Ok(b""), 0),
    (Call::Read, "dl_files_b", Ok(b"one"), 0),
];

fn keep_what_is_written<F: Files>(rt: &impl Abort, alloc: Global, files: &mut F) {
    follow(rt, alloc, files, KEPT);
}

#[test]
fn files_keep_what_is_written(rt: HostRuntime) -> Result<(), Fail> {
    let alloc = rt.alloc();
    let mut good = GoodFiles::new(alloc);
    keep_what_is_written(&rt, alloc, &mut good);
    assert!(rt; good.faults() == Faults { all: 0, failed: 0 });
    assert!(rt; copy_good(alloc, &mut good, "dl_files_c", "a") == Ok(()));
    assert!(rt; copy_good(alloc, &mut good, "z", "a") == Err(FileError::Absent));
    let mut mem = MemFiles::new(alloc, GoodFiles::new(alloc), &[])?;
    keep_what_is_written(&rt, alloc, &mut mem);
    Ok(())
}

// Real files without these names, after calls none of which was refused.
const REFUSED: &[Step] = &[
    (Call::Read, "dl_files_a", Err(FileError::Absent), 1),
    (Call::Read, ".", Err(FileError::Failed), 2),
    (Call::ReadAt(0), "dl_files_a", Err(FileError::Absent), 3),
    (Call::ReadAt(0), ".", Err(FileError::Failed), 4),
    (Call::Write(b""), "dl_files_a/b", Err(FileError::Failed), 5),
    (Call::Create, "dl_files_a/b", Err(FileError::Failed), 6),
    (Call::Append(b""), "dl_files_a/b", Err(FileError::Failed), 7),
];

#[test]
fn real_files_are_read_written_and_counted(rt: HostRuntime) -> Result<(), Fail> {
    let alloc = rt.alloc();
    let mut real = RealFiles::new(rt.clone()?);
    keep_what_is_written(&rt, alloc, &mut real);
    assert!(rt; keeps_long_bytes(alloc, &mut real)?);
    for name in NAMES {
        fs::remove_file(&rt, name)?;
    }
    follow(&rt, alloc, &mut real, REFUSED);
    assert!(rt; real.faults() == Faults { all: 7, failed: 5 });
    Ok(())
}

const NAMES: &[&str] = &["dl_files_a", "dl_files_b", "dl_files_c", "dl_files_d"];

fn keeps_long_bytes<F: Files>(alloc: Global, files: &mut F) -> Result<bool, Fail> {
    let long = vec![in alloc; 7; 200_000]?;
    Ok(
        files.write("dl_files_a", long.as_slice()) == Ok(())
            && is_answer(&files.read(alloc, "dl_files_a"), Ok(long.as_slice())),
    )
}

// Files of which only "a" is there, and whose listed calls fail.
const LISTED: &[Step] = &[
    (Call::Write(b"xy"), "b", Ok(b""), 0),
    (Call::Read, "z", Err(FileError::Absent), 0),
    (Call::Read, "a", Err(FileError::Failed), 1),
    (Call::Read, "a", Ok(b"1"), 1),
    (Call::Write(b"q"), "b", Err(FileError::Failed), 2),
    (Call::Read, "a", Ok(b"1"), 2),
    (Call::Write(b"q"), "b", Ok(b""), 2),
    (Call::Read, "b", Ok(b"q"), 2),
    (Call::ReadAt(0), "z", Err(FileError::Absent), 2),
    (Call::ReadAt(0), "a", Err(FileError::Failed), 3),
    (Call::ReadAt(0), "a", Ok(b"1"), 3),
    (Call::Create, "b", Err(FileError::Failed), 4),
    (Call::Create, "b", Ok(b""), 4),
    (Call::Append(b"q"), "b", Err(FileError::Failed), 5),
    (Call::Append(b"q"), "z", Ok(b""), 5),
    (Call::Read, "z", Ok(b"q"), 5),
];

#[test]
fn listed_calls_of_files_fail(rt: HostRuntime) -> Result<(), Fail> {
    let alloc = rt.alloc();
    let mut good = GoodFiles::new(alloc);
    good.write("a", b"1")?;
    let mut files = MemFiles::new(alloc, good, &[1, 3, 7, 9, 11])?;
    follow(&rt, alloc, &mut files, LISTED);
    assert!(rt; files.faults() == Faults { all: 5, failed: 5 });
    Ok(())
}

#[test]
fn sinks_take_pieces(rt: HostRuntime) -> Result<(), Fail> {
    let mut good = GoodSink::new(rt.alloc());
    take_a_piece(&rt, &mut good);
    assert!(rt; good.taken() == b"piece\n".as_slice());
    let mut mem = MemSink::new(rt.alloc(), &[])?;
    take_a_piece(&rt, &mut mem);
    assert!(rt; mem.taken() == b"piece\n".as_slice());
    take_a_piece(&rt, &mut StdSink::new(rt.clone()?));
    Ok(())
}

fn take_a_piece<O: Sink>(rt: &impl Abort, sink: &mut O) {
    assert!(rt; sink.put(b"piece\n") == Ok(6));
    assert!(rt; sink.put(b"") == Ok(0));
    assert!(rt; sink.faults() == 0);
}

#[test]
fn listed_calls_of_a_sink_fail(rt: HostRuntime) -> Result<(), Fail> {
    let mut sink = MemSink::new(rt.alloc(), &[0, 2])?;
    for put in PUTS {
        assert!(rt; is_put(&mut sink, put));
    }
    Ok(())
}

// A piece, what its call answers, what has been taken then, and the count of faults.
type Put = (&'static [u8], Result<usize, SinkError>, &'static [u8], u64);

const PUTS: &[Put] = &[
    (b"ab", Err(SinkError::Failed), b"", 1),
    (b"ab", Ok(2), b"ab", 1),
    (b"c", Err(SinkError::Failed), b"ab", 2),
    (b"c", Ok(1), b"abc", 2),
    (b"", Ok(0), b"abc", 2),
];

fn is_put(sink: &mut MemSink, put: &Put) -> bool {
    let (piece, want, taken, faults) = *put;
    sink.put(piece) == want && sink.taken() == taken && sink.faults() == faults
}
