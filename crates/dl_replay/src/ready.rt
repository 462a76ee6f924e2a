//! Strata that are ready to be replayed.
ghost use Rattle.std.specs.Prelude.{◌≡◌, ◌<◌, ◌≤◌, ◌++◌, All, IfOk, OnOk, Some, flat_map, length, map, option_map, slice_get};
ghost use Rattle.dl_replay.specs.Standings.{CountsFew, CountsThreads, counts_of};
ghost use Rattle.dl_replay.specs.Starts.{none_done_of, start_of};
ghost use Rattle.spec_strata.specs.Standing.{least_left};
ghost use Rattle.spec_strata.specs.Strata.{AreStrata, commits_in_all};

use crate::done::{commits_in, sum_of};
use dl_entry::{Actor, OutOfMemory, Sequence};
use spec_strata::{Strata, StrataParts, Stratum};
use std::alloc::Global;
use std::marker::Model;
use std::mem;

/// How a stratum begins: how many chunks it has, if it has chunks, and whose commit is first in canonical order.
#[derive(Clone, Copy)]
pub struct Start {
    pub count: Option<u32>,
    pub head: Option<Actor>,
}

/// Strata, laid out for a replay: how each of them begins, how many chunks of each thread each of them has, in one list, and how
/// many commits all of them have. The parts keep all else.
#[derive(Drop)]
pub struct ReadyStrata {
    parts: StrataParts,
    starts: Vec<Start>,
    counts: Vec<u8>,
    commits: u32,
}

impl Model for ReadyStrata {
    ghost use Rattle.std.specs.Prelude.{◌≡◌, flat_map, map};
    ghost use Rattle.spec_strata.specs.declared.strata.StrataParts.{StrataParts};
    ghost use Rattle.spec_strata.specs.Strata.{AreStrata, commits_in_all};
    ghost use Rattle.dl_replay.specs.Standings.{counts_of};
    ghost use Rattle.dl_replay.specs.Starts.{laid_with, start_of};

    ghost Value = { StrataParts };

    ghost view = { λ r. laid_with r.parts r.starts.items r.counts.items };

    ghost invariant = { λ r. let v = laid_with r.parts r.starts.items r.counts.items in
        AreStrata v
        × (r.starts.items ≡ map start_of v.strata)
        × (r.counts.items ≡ flat_map (counts_of v.counted) v.strata)
        × (r.commits ≡ commits_in_all v.strata) };
}

impl ReadyStrata {
    pub fn new(alloc: Global, strata: Strata) -> Result<ReadyStrata, OutOfMemory>
        ensures { IfOk result (λ ready. ready ≡ strata) }
    {
        let mut parts = strata.into_parts();
        let strata = mem::replace(&mut parts.strata, Sequence::new(alloc));
        let starts = starts_of(alloc, strata.as_slice())?;
        let counts = counts_of(alloc, strata.as_slice(), usize::from(parts.counted))?;
        let commits = commits_in(strata.as_slice());
        Ok(ReadyStrata {
            parts,
            starts,
            counts,
            commits,
        })
    }

    /// All parts but the strata.
    pub fn parts(&self) -> &StrataParts
        ensures parts { result.now ≡ record self.now { strata = result.now.strata } }
        ensures good { AreStrata self.now }
    {
        &self.parts
    }

    /// How many strata there are.
    pub fn len(&self) -> usize
        ensures value { result ≡ length self.now.strata }
        ensures good { AreStrata self.now }
    {
        self.starts.len()
    }

    /// How many commits all of them have.
    pub fn commits(&self) -> u32
        ensures { result ≡ commits_in_all self.now.strata }
    {
        self.commits
    }

    /// How the stratum at a place begins.
    pub fn start(&self, place: usize) -> Start
        requires { place < length self.now.strata }
        ensures { Some result ≡ option_map start_of (slice_get self.now.strata place) }
    {
        self.starts[place]
    }

    /// How many chunks of each thread the stratum at a place has.
    pub fn counts(&self, place: usize) -> &[u8]
        requires { place < length self.now.strata }
        ensures value { Some result.now ≡ option_map (counts_of self.now.counted) (slice_get self.now.strata place) }
        ensures threads { length result.now ≡ self.now.counted }
    {
        let threads = usize::from(self.parts.counted);
        let first = threads * place;
        &self.counts[first..first + threads]
    }
}

// How many chunks of each of so many threads each of these has, in one list.
fn counts_of(alloc: Global, strata: &[Stratum], threads: usize) -> Result<Vec<u8>, OutOfMemory>
    requires each { All (CountsThreads threads) strata.now }
    requires few { threads ≤ 63 }
    ensures { IfOk result (λ counts. counts.items ≡ flat_map (counts_of threads) strata.now) }
{
    let mut counts = Vec::new(alloc);
    for stratum in strata {
        add_counts(&mut counts, stratum, threads)?;
    }
    Ok(counts)
}

// Adds those of one stratum.
fn add_counts(all: &mut Vec<u8>, stratum: &Stratum, threads: usize) -> Result<(), OutOfMemory>
    requires { threads ≤ 63 }
    ensures { OnOk result (all.new.items ≡ all.old.items ++ counts_of threads stratum.now) }
{
    match stratum {
        Stratum::Chunks(counts) => all.extend_from_slice(counts.as_slice())?,
        Stratum::Serial(_) | Stratum::Dma => all.resize(all.len() + threads, 0)?,
    }
    Ok(())
}

// How each of these begins.
fn starts_of(alloc: Global, strata: &[Stratum]) -> Result<Vec<Start>, OutOfMemory>
    requires { All CountsFew strata.now }
    ensures { IfOk result (λ starts. starts.items ≡ map start_of strata.now) }
{
    let mut starts = Vec::new(alloc);
    for stratum in strata {
        starts.push(start_of(stratum))?;
    }
    Ok(starts)
}

fn start_of(stratum: &Stratum) -> Start
    requires { CountsFew stratum.now }
    ensures { result ≡ start_of stratum.now }
{
    match stratum {
        Stratum::Chunks(counts) => Start {
            count: Some(sum_of(counts.as_slice())),
            head: first_of(counts.as_slice()),
        },
        Stratum::Serial(thread) => Start {
            count: None,
            head: Some(Actor::Thread(*thread)),
        },
        Stratum::Dma => Start {
            count: None,
            head: Some(Actor::Dma),
        },
    }
}

// The least thread that has a chunk.
fn first_of(counts: &[u8]) -> Option<Actor>
    requires { length counts.now ≤ 63 }
    ensures { result ≡ option_map Actor.Thread (least_left 0 counts.now (none_done_of counts.now)) }
{
    for thread in 0..counts.len() {
        if counts[thread] > 0 {
            return Some(Actor::Thread(thread as u8));
        }
    }
    None
}
