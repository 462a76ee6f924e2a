//! Walks a log, and makes a trail of it and takes slices near its end. Its words are the number of the log's commits, and
//! how many slices are taken; with the first alone it only walks. With none it does both, for a short log.
#![tactic(auto)]

mod file;
mod slices;

use dl_serial::walk;
use dl_trail::Trail;
use file::{image, log};
use slices::checksum;
use std::env;

// After how many commits each a state is kept.
const EVERY: u32 = 1024;

fn main(rt: HostRuntime) -> anyhow::Result<()> {
    let mut words = env::args(&rt)?.skip(1);
    let commits = number(words.next())?;
    let slices = number(words.next())?;
    match (commits, slices) {
        (Some(commits), Some(slices)) => print_slices(&rt, commits, slices),
        (Some(commits), None) => print_walk(&rt, commits),
        (None, _) => {
            print_walk(&rt, 4000)?;
            print_slices(&rt, 4000, 3)
        }
    }
}

fn number(word: Option<String>) -> anyhow::Result<Option<u32>> {
    match word {
        Some(word) => Ok(Some(word.as_str().parse::<u32>()?)),
        None => Ok(None),
    }
}

fn print_walk(rt: &(impl Print + AllocGlobal), commits: u32) -> anyhow::Result<()> {
    let alloc = rt.alloc();
    let walked = walk(alloc, &image(alloc)?, &log(alloc, commits)?, commits)?;
    let done = walked.commits.len();
    println!(rt; "walked {done} commits")?;
    Ok(())
}

fn print_slices(rt: &(impl Print + AllocGlobal), commits: u32, slices: u32) -> anyhow::Result<()> {
    let alloc = rt.alloc();
    let trail = Trail::new(alloc, &image(alloc)?, &log(alloc, commits)?, EVERY)?;
    let kept = trail.kept().len();
    let sum = checksum(&trail, commits, slices)?;
    println!(rt; "kept {kept} states, took {slices} slices, checksum {sum:08X}")?;
    Ok(())
}
