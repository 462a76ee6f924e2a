//! Steps chunks of 4,096 instructions, three in four of which store, through buffers of 16 and of 4,096 words and signatures
//! of 64 and of 2,048 bits, and prints the outcome of each. Its first word says how often each is stepped, once if there is
//! none; a second word leaves out buffers of any other size, and a third signatures of any other.
#![tactic(auto)]

ghost use Rattle.std.specs.Prelude.{◌≡◌, ◌≤◌, true};
ghost use Rattle.spec_engine.specs.Signatures.{is_size};

mod file;
mod rounds;

use dl_elf::load;
use dl_fly::Flights;
use dl_mem::Memory;
use file::file;
use rounds::{Room, last_of};
use std::env;

fn main(rt: HostRuntime) -> anyhow::Result<()> {
    let mut words = env::args(&rt)?.skip(1);
    let choice = Choice {
        rounds: number(words.next())?.unwrap_or(1),
        words: number(words.next())?,
        bits: number(words.next())?,
    };
    print(&rt, &choice, 16, 64)?;
    print(&rt, &choice, 16, 2048)?;
    print(&rt, &choice, 4096, 64)?;
    print(&rt, &choice, 4096, 2048)
}

fn number(word: Option<String>) -> anyhow::Result<Option<u32>> {
    match word {
        Some(word) => Ok(Some(word.as_str().parse::<u32>()?)),
        None => Ok(None),
    }
}

// How often each is stepped, and which ones only.
#[derive(Drop)]
struct Choice {
    rounds: u32,
    words: Option<u32>,
    bits: Option<u32>,
}

fn print(
    rt: &(impl Print + AllocGlobal),
    choice: &Choice,
    words: u32,
    bits: u32,
) -> anyhow::Result<()>
    requires least { 1 ≤ words }
    requires most { words ≤ 4096 }
    requires bits { is_size bits ≡ true }
{
    if choice.words.unwrap_or(words) != words || choice.bits.unwrap_or(bits) != bits {
        return Ok(());
    }
    let image = load(rt.alloc(), &file(rt.alloc(), words)?, 32_768)?;
    let mem = Memory::new(rt.alloc(), &image)?;
    let flights = Flights::new(rt.alloc(), 8, 8)?;
    let room = Room { words, bits };
    let last = last_of(rt.alloc(), room, choice.rounds, &mem, &flights)?;
    println!(rt; "{room}: {last}")?;
    Ok(())
}
