//! A chunk that is stepped over and over from its start.
ghost use Rattle.std.specs.Prelude.{◌≡◌, ◌≤◌, true};
ghost use Rattle.spec_engine.specs.Signatures.{is_size};

use dl_chunk::Chunk;
use dl_fly::Flights;
use dl_mem::Memory;
use dl_sig::Banked;
use dl_thread::{Load, Thread};
use std::alloc::{AllocError, Global};
use std::fmt;
use std::fmt::{Display, Formatter, Write};

const LIMIT: u32 = 4096;

/// The words of a write buffer, and the bits of signatures.
#[derive(Clone, Copy)]
pub struct Room {
    pub words: u32,
    pub bits: u32,
}

impl Display for Room {
    fn fmt<W: Write>(&self, f: &mut Formatter<W>) -> fmt::Result {
        write!(f, "buffer {} signature {}", self.words, self.bits)
    }
}

/// The outcome of a chunk.
#[derive(Drop)]
pub struct Round {
    steps: u32,
    loads: usize,
    words: u32,
    checksum: u32,
}

impl Display for Round {
    fn fmt<W: Write>(&self, f: &mut Formatter<W>) -> fmt::Result {
        write!(
            f,
            "{} steps, {} loads, {} words, checksum {:08X}",
            self.steps, self.loads, self.words, self.checksum
        )
    }
}

/// Steps a chunk of the program from its start, that many times, and gives the outcome of the last.
pub fn last_of(
    alloc: Global,
    room: Room,
    rounds: u32,
    mem: &Memory,
    flights: &Flights<Banked>,
) -> Result<Round, AllocError>
    requires least { 1 ≤ room.words }
    requires most { room.words ≤ 4096 }
    requires bits { is_size room.bits ≡ true }
{
    let mut chunk = Chunk::new(alloc, LIMIT, room.words, room.bits)?;
    for _ in 0..rounds {
        chunk.begin(0, &Thread::started(0), LIMIT, true);
        fill(&mut chunk, mem, flights);
    }
    Ok(Round {
        steps: chunk.n(),
        loads: chunk.loads().len(),
        words: chunk.words().len(),
        checksum: checksum(chunk.loads()),
    })
}

// Steps the chunk until it closes.
fn fill(chunk: &mut Chunk<Banked>, mem: &Memory, flights: &Flights<Banked>)
    ensures { chunk.new.most ≡ chunk.old.most }
{
    for _ in 0..LIMIT {
        if chunk.closed().is_some() {
            return;
        }
        chunk.step(mem, flights, 0);
    }
}

fn checksum(loads: &[Load]) -> u32 {
    let mut sum: u32 = 0;
    for load in loads {
        sum = sum
            .wrapping_mul(31)
            .wrapping_add(load.addr)
            .wrapping_add(load.value);
    }
    sum
}
