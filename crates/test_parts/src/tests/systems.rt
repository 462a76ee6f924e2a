//! Real files and the standard output over the system, whose calls go wrong: what no clause says.
use dl_files::{Faults, FileError, Files, GoodFiles, OutputSink, Sink, SinkError, SystemFiles};
use std::alloc::Global;
use std::process::Abort;
use std::test::Fail;
use test_system::{TestOutput, TestSystem, Trouble};

const OLD: &[u8] = b"what was there";

// A system with one file.
fn one_file(alloc: Global) -> Result<TestSystem, Fail> {
    let mut files = GoodFiles::new(alloc);
    files.write("old", OLD)?;
    Ok(TestSystem::new(alloc, files))
}

fn holds<F: Files>(alloc: Global, files: &mut F, name: &str, want: &[u8]) -> bool {
    match files.read(alloc, name) {
        Ok(bytes) => bytes.as_slice() == want,
        Err(_) => false,
    }
}

#[test]
fn short_calls_go_on(rt: HostRuntime) -> Result<(), Fail> {
    let alloc = rt.alloc();
    let mut system = one_file(alloc)?;
    system.set_piece(3);
    let mut files = SystemFiles::over(system);
    assert!(rt; holds(alloc, &mut files, "old", OLD));
    assert!(rt; files.write("new", b"0123456789") == Ok(()));
    assert!(rt; files.append("new", b"abcd") == Ok(()));
    assert!(rt; holds(alloc, &mut files, "new", b"0123456789abcd"));
    let mut piece = [0; 5];
    assert!(rt; files.read_at("new", 7, &mut piece) == Ok(5));
    assert!(rt; piece.as_slice() == b"789ab".as_slice());
    assert!(rt; files.faults() == Faults { all: 0, failed: 0 });
    Ok(())
}

// The calls of a read are an opening and then reads, the last of which gives nothing.
#[test]
fn interrupted_calls_are_made_again(rt: HostRuntime) -> Result<(), Fail> {
    let alloc = rt.alloc();
    let mut system = one_file(alloc)?;
    for call in [1, 2, 4, 7] {
        system.plan(call, Trouble::Interrupted)?;
    }
    let mut files = SystemFiles::over(system);
    assert!(rt; holds(alloc, &mut files, "old", OLD));
    assert!(rt; files.write("new", b"n") == Ok(()));
    assert!(rt; holds(alloc, &mut files, "new", b"n"));
    assert!(rt; files.faults() == Faults { all: 0, failed: 0 });
    Ok(())
}

#[test]
fn refused_calls_are_faults(rt: HostRuntime) -> Result<(), Fail> {
    let alloc = rt.alloc();
    let mut system = one_file(alloc)?;
    for call in [0, 2, 3] {
        system.plan(call, Trouble::Refused)?;
    }
    let mut files = SystemFiles::over(system);
    assert!(rt; files.read(alloc, "old").is_err());
    assert!(rt; files.read(alloc, "old").is_err());
    assert!(rt; files.write("new", b"n") == Err(FileError::Failed));
    assert!(rt; files.faults() == Faults { all: 3, failed: 3 });
    assert!(rt; files.read_at("new", 0, &mut [0; 1]) == Err(FileError::Absent));
    assert!(rt; files.faults() == Faults { all: 4, failed: 3 });
    assert!(rt; holds(alloc, &mut files, "old", OLD));
    Ok(())
}

// What fits is there.
#[test]
fn a_full_disk_is_a_fault(rt: HostRuntime) -> Result<(), Fail> {
    let alloc = rt.alloc();
    let mut system = one_file(alloc)?;
    system.set_room(4);
    let mut files = SystemFiles::over(system);
    assert!(rt; files.write("new", b"123456") == Err(FileError::Failed));
    assert!(rt; files.faults() == Faults { all: 1, failed: 1 });
    assert!(rt; holds(alloc, &mut files, "new", b"1234"));
    assert!(rt; files.create("empty") == Ok(()));
    assert!(rt; holds(alloc, &mut files, "empty", b""));
    assert!(rt; holds(alloc, &mut files, "old", OLD));
    Ok(())
}

#[test]
fn an_output_is_short_and_refuses(rt: HostRuntime) -> Result<(), Fail> {
    let mut output = TestOutput::new(rt.alloc());
    output.set_piece(2);
    output.plan(0, Trouble::Interrupted)?;
    output.plan(2, Trouble::Refused)?;
    let mut sink = OutputSink::over(output);
    assert!(rt; sink.put(b"abc") == Ok(2));
    assert!(rt; sink.put(b"c") == Err(SinkError::Failed));
    assert!(rt; sink.faults() == 1);
    assert!(rt; sink.put(b"c") == Ok(1));
    Ok(())
}
