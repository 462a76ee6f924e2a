//! Rounds of puts, each with a snapshot at its end.
ghost use Rattle.std.specs.Prelude.{◌≡◌, length, IfOk};

use dl_mem::{Memory, Snapshot};
use std::alloc::AllocError;

/// The size of the memory.
pub const SIZE: u32 = 16_777_216;

// The size of a page of it.
const PAGE: u32 = 4096;

/// Puts to the first pages and takes a snapshot, that many times, and gives the last snapshot.
pub fn last_of(memory: &mut Memory, pages: u32, rounds: u32) -> Result<Snapshot, AllocError>
    requires { length memory.old ≡ 16777216 }
    ensures { IfOk result (λ snapshot. length snapshot ≡ 16777216) }
{
    let mut last = memory.snapshot()?;
    for round in 0..rounds {
        put_to(memory, pages, round);
        last = memory.snapshot()?;
    }
    Ok(last)
}

// Puts to the first word of each of that many pages.
#[tactic(auto, using(spec_isa::proofs::MemoryLaws::length_lay))]
fn put_to(memory: &mut Memory, pages: u32, round: u32)
    requires { length memory.old ≡ 16777216 }
    ensures { length memory.new ≡ 16777216 }
{
    for page in 0..pages.min(SIZE / PAGE) {
        memory.put(page * PAGE, 0b1111, page.wrapping_add(round));
    }
}

/// A checksum of the first words of all pages.
pub fn checksum(snapshot: &Snapshot) -> u32
    requires { length snapshot.now ≡ 16777216 }
{
    let mut sum: u32 = 0;
    for page in 0..SIZE / PAGE {
        sum = sum
            .wrapping_mul(31)
            .wrapping_add(snapshot.word(page * PAGE));
    }
    sum
}
