//! Limits after squashes, and the steps of a chunk of two instructions.
ghost use Rattle.std.specs.Prelude.{◌≤◌};

use super::small::SEVEN;
use dl_chunk::{Chunk, CutReply, How, Stepped};
use dl_elf::load;
use dl_fly::Flights;
use dl_mem::Memory;
use dl_sig::{Banked, PlainSet, Sig};
use dl_thread::Thread;
use std::alloc::{AllocError, Global};
use std::process::Abort;
use std::test::Fail;

// A chunk that has just begun.
fn begun<G: Sig>(alloc: Global, limit: u32, halves: bool) -> Result<Chunk<G>, AllocError>
    requires least { 1 ≤ limit }
    requires most { limit ≤ 16 }
{
    let mut chunk = Chunk::new(alloc, 16, 1, 64)?;
    chunk.begin(0, &Thread::started(0), limit, halves);
    Ok(chunk)
}

// The limit of a chunk after that many squashes.
fn limit_after(alloc: Global, limit: u32, halves: bool, squashes: u32) -> Result<u32, AllocError>
    requires least { 1 ≤ limit }
    requires most { limit ≤ 16 }
{
    let mut chunk: Chunk<PlainSet> = begun(alloc, limit, halves)?;
    for _ in 0..squashes {
        chunk.squash();
    }
    Ok(chunk.limit())
}

#[test]
fn each_fourth_squash_halves_the_limit(rt: HostRuntime) -> Result<(), Fail> {
    for (limit, halves, squashes, halved) in LIMITS {
        assert!(rt; 1 <= *limit && *limit <= 16);
        assert!(rt; limit_after(rt.alloc(), *limit, *halves, *squashes)? == *halved);
    }
    Ok(())
}

// A limit, whether it is halved, how many squashes there are, and the limit after them.
const LIMITS: &[(u32, bool, u32, u32)] = &[
    (16, true, 3, 16),
    (16, true, 4, 8),
    (16, true, 8, 4),
    (1, true, 8, 1),
    (16, false, 8, 16),
];

// The next step of core 0, if the chunk is open.
fn next<G: Sig>(chunk: &mut Chunk<G>, mem: &Memory, flights: &Flights<G>) -> Option<Stepped> {
    match chunk.closed() {
        Some(_) => None,
        None => Some(chunk.step(mem, flights, 0)),
    }
}

#[test]
fn closes_before_a_serial_instruction(rt: HostRuntime) -> Result<(), Fail> {
    let mem = memory(rt.alloc())?;
    let flights = Flights::new(rt.alloc(), 1, 1)?;
    closes(&rt, &mut begun(rt.alloc(), 16, true)?, &mem, &flights);
    Ok(())
}

fn memory(alloc: Global) -> Result<Memory, Fail> {
    Ok(Memory::new(alloc, &load(alloc, &SEVEN, 4096)?)?)
}

// The chunk runs one instruction, closes, and is open again once it is squashed.
fn closes(rt: &impl Abort, chunk: &mut Chunk<Banked>, mem: &Memory, flights: &Flights<Banked>) {
    assert!(rt; chunk.cut() == CutReply::NothingRun);
    assert!(rt; next(chunk, mem, flights) == Some(Stepped::Ran));
    assert!(rt; has_run(chunk, 1, 7));
    assert!(rt; next(chunk, mem, flights) == Some(Stepped::Closed(How::Serial)));
    assert!(rt; next(chunk, mem, flights).is_none());
    assert!(rt; chunk.cut() == CutReply::Waiting);
    chunk.squash();
    assert!(rt; has_run(chunk, 0, 0));
    assert!(rt; chunk.closed().is_none());
}

// Whether that many instructions have run, and left this in x10.
fn has_run(chunk: &Chunk<Banked>, n: u32, x10: u32) -> bool {
    chunk.n() == n && chunk.state().x()[10] == x10
}
