//! How many commits each thread has done.
ghost use Rattle.std.specs.Prelude.{◌≡◌, ◌≤◌, length, slice_get};
ghost use Rattle.dl_entry.specs.Numbers.{most_threads};
ghost use Rattle.dl_replay.specs.Counts.{commits_at, commits_of};

use dl_thread::{PLACES, Threads};

/// How many commits each thread has done, 0 where there is none.
pub fn commits_of(threads: &Threads) -> [u32; PLACES]
    ensures value { result ≡ commits_of threads.now }
    ensures few { length threads.now ≤ most_threads }
{
    let mut commits = [0; PLACES];
    for number in 0..threads.len() {
        commits[usize::from(number)] = commits_at(threads, number);
    }
    commits
}

fn commits_at(threads: &Threads, number: u8) -> u32
    ensures { result ≡ commits_at (slice_get threads.now number) }
{
    match threads.get(number) {
        Some(thread) => thread.commits(),
        None => 0,
    }
}
