//! Puts to 0, 1, 16, 256 and 4,096 pages of a memory of 16 MiB and takes a snapshot, over and over, and prints what the last
//! snapshots hold. Its first word says how often, three times if there is none; a second one leaves out other numbers of pages.
#![tactic(auto)]

ghost use Rattle.std.specs.Prelude.{◌≡◌, length};

mod rounds;

use dl_elf::load;
use dl_mem::Memory;
use rounds::{SIZE, checksum, last_of};
use std::env;

// A header and one segment of no bytes, so that the memory's bytes are all 0.
const FILE: [u8; 84] = [
    0x7f, 0x45, 0x4c, 0x46, 0x01, 0x01, 0x01, 0x00, 0x00, 0x00, 0x00, 0x00, 0x00, 0x00, 0x00, 0x00,
    0x02, 0x00, 0xf3, 0x00, 0x01, 0x00, 0x00, 0x00, 0x00, 0x00, 0x00, 0x00, 0x34, 0x00, 0x00, 0x00,
    0x00, 0x00, 0x00, 0x00, 0x00, 0x00, 0x00, 0x00, 0x34, 0x00, 0x20, 0x00, 0x01, 0x00, 0x00, 0x00,
    0x00, 0x00, 0x00, 0x00, 0x01, 0x00, 0x00, 0x00, 0x54, 0x00, 0x00, 0x00, 0x00, 0x00, 0x00, 0x00,
    0x00, 0x00, 0x00, 0x00, 0x00, 0x00, 0x00, 0x00, 0x00, 0x00, 0x00, 0x00, 0x07, 0x00, 0x00, 0x00,
    0x04, 0x00, 0x00, 0x00,
];

fn main(rt: HostRuntime) -> anyhow::Result<()> {
    let mut words = env::args(&rt)?.skip(1);
    let rounds = number(words.next())?.unwrap_or(3);
    let only = number(words.next())?;
    for pages in [0, 1, 16, 256, 4096] {
        if only.is_none() || only == Some(pages) {
            print(&rt, pages, rounds)?;
        }
    }
    Ok(())
}

fn number(word: Option<String>) -> anyhow::Result<Option<u32>> {
    match word {
        Some(word) => Ok(Some(word.as_str().parse::<u32>()?)),
        None => Ok(None),
    }
}

fn print(rt: &(impl Print + AllocGlobal), pages: u32, rounds: u32) -> anyhow::Result<()> {
    let mut memory = Memory::new(rt.alloc(), &load(rt.alloc(), &FILE, SIZE)?)?;
    if memory.size() != SIZE {
        anyhow::bail!("a memory of another size");
    }
    let last = last_of(&mut memory, pages, rounds)?;
    let sum = checksum(&last);
    println!(rt; "pages {pages}: {rounds} rounds, checksum {sum:08X}")?;
    Ok(())
}
