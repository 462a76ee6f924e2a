//! Runs two schedules on machines of 1, 4 and 8 cores, with as many recorded spheres and slots, and prints the outcomes. In
//! rounds each core fills its chunk and asks, and then all flights are made visible; the other schedule is drawn from a seed.
//! Words ask for one machine only: its cores, how many rounds and how many drawn events there are, and how many chunks a core may have.
#![tactic(auto)]

mod file;
mod machines;

use machines::{drawn, in_rounds};
use std::env;

fn main(rt: HostRuntime) -> anyhow::Result<()> {
    let mut words = env::args(&rt)?.skip(1);
    let only = number(words.next())?;
    let rounds = number(words.next())?.unwrap_or(10);
    let events = number(words.next())?.unwrap_or(10_000);
    let depth = match number(words.next())? {
        Some(2) => 2,
        _ => 1,
    };
    for cores in [1, 4, 8] {
        if only.is_none() || only == Some(cores) {
            let outcome = in_rounds(rt.alloc(), cores as u8, depth, rounds)?;
            println!(rt; "{outcome}")?;
            let outcome = drawn(rt.alloc(), cores as u8, depth, events)?;
            println!(rt; "{outcome}")?;
        }
    }
    Ok(())
}

fn number(word: Option<String>) -> anyhow::Result<Option<u32>> {
    match word {
        Some(word) => Ok(Some(word.as_str().parse::<u32>()?)),
        None => Ok(None),
    }
}
