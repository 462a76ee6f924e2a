//! How many chunks of a stratum are counted and done, by thread; and how many commits strata have.
ghost use Rattle.std.specs.Prelude.{◌≡◌, ℕ, List, ◌<◌, ◌≤◌, ◌^◌, All, drop, length, option_map};
ghost use Rattle.std.specs.List.{sum};
ghost use Rattle.spec_strata.specs.Strata.{commits_in, commits_in_all};
ghost use Rattle.dl_replay.specs.Standings.{CountsFew};
ghost use Rattle.spec_strata.specs.Standing.{least_left, with_one_done};

use dl_entry::Actor;
use dl_mode::is_head;
use spec_strata::Stratum;

/// The least thread, from a number on, with fewer chunks done than are counted.
pub fn least_left(counts: &[u8], done: &[u32], from: usize) -> Option<Actor>
    requires threads { length counts.now ≡ length done.now }
    requires few { length counts.now ≤ 63 }
    ensures { result ≡ option_map Actor.Thread (least_left from (drop from counts.now) (drop from done.now)) }
{
    for thread in from..counts.len() {
        if done[thread] < u32::from(counts[thread]) {
            return Some(Actor::Thread(thread as u8));
        }
    }
    None
}

/// Looks for the head again after a chunk more of a thread, which is among those that are done. If it was the last chunk of the
/// thread that was the head, the next thread with chunks left is.
pub fn pass_on(head: &mut Option<Actor>, thread: u8, counts: &[u8], done: &[u32])
    requires thread { thread < length counts.now }
    requires threads { length counts.now ≡ length done.now }
    requires few { length counts.now ≤ 63 }
    ensures { (before : List ℕ) → done.now ≡ with_one_done thread before → head.old ≡ option_map Actor.Thread (least_left 0 counts.now before) →
        head.new ≡ option_map Actor.Thread (least_left 0 counts.now done.now) }
{
    let number = usize::from(thread);
    if is_head(*head, Actor::Thread(thread)) && done[number] >= u32::from(counts[number]) {
        *head = least_left(counts, done, number + 1);
    }
}

/// How many are counted of at most 63 threads.
pub fn sum_of(counts: &[u8]) -> u32
    requires { length counts.now ≤ 63 }
    ensures { result ≡ sum counts.now }
{
    let mut sum = 0;
    for count in counts {
        sum += u32::from(*count);
    }
    sum
}

/// How many commits strata have.
pub fn commits_in(strata: &[Stratum]) -> u32
    requires all { commits_in_all strata.now ≤ 2 ^ 24 }
    requires few { All CountsFew strata.now }
    ensures { result ≡ commits_in_all strata.now }
{
    let mut commits = 0;
    for stratum in strata {
        commits += commits_of(stratum);
    }
    commits
}

fn commits_of(stratum: &Stratum) -> u32
    requires { CountsFew stratum.now }
    ensures { result ≡ commits_in stratum.now }
{
    match stratum {
        Stratum::Chunks(counts) => sum_of(counts.as_slice()),
        Stratum::Serial(_) | Stratum::Dma => 1,
    }
}
