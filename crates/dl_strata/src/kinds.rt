//! The kinds of the commits that strata hold.
ghost use Rattle.std.specs.Prelude.{◌≡◌, ◌<◌, ◌++◌, ◌^◌, length, map, replicate, All, IfOk, OnOk};
ghost use Rattle.std.specs.List.{flat_map};
ghost use Rattle.spec_strata.specs.OnImages.{kinds_of};
ghost use Rattle.dl_strata.specs.Kinds.{IsFirstOther};
ghost use Rattle.dl_strata.specs.Runs.{HasFewCounts};

use crate::runs::sum_of;
use dl_entry::{Commit, CommitKind, OutOfMemory, Sequence};
use spec_strata::Stratum;
use std::alloc::Global;

/// The kinds of all commits.
pub fn kinds_in(alloc: Global, runs: &[Stratum]) -> Result<Sequence<CommitKind>, OutOfMemory>
    requires { All HasFewCounts runs.now }
    ensures { IfOk result (λ kinds. kinds ≡ flat_map kinds_of runs.now) }
{
    let mut kinds = Sequence::new(alloc);
    for run in runs {
        put_run(&mut kinds, run)?;
    }
    Ok(kinds)
}

/// The first commit that isn't of the kind at its place, if there is one.
pub fn first_other(commits: &[Commit], kinds: &[CommitKind]) -> Option<u32>
    requires { length commits.now < 2 ^ 32 }
    ensures { IsFirstOther (map (λ c. c.kind) commits.now) kinds.now result }
{
    let mut index = 0;
    for commit in commits {
        match kinds.get(index as usize) {
            Some(kind) if *kind == commit.kind => index += 1,
            Some(_) | None => return Some(index),
        }
    }
    None
}

// Puts the kinds of a stratum's commits after others.
fn put_run(kinds: &mut Sequence<CommitKind>, run: &Stratum) -> Result<(), OutOfMemory>
    requires { HasFewCounts run.now }
    ensures { OnOk result (kinds.new ≡ kinds.old ++ kinds_of run.now) }
{
    match run {
        Stratum::Chunks(counts) => put_often(kinds, CommitKind::Chunk, sum_of(counts.as_slice())),
        Stratum::Serial(_) => kinds.push(CommitKind::Serial),
        Stratum::Dma => kinds.push(CommitKind::Dma),
    }
}

// Puts a kind so many times.
fn put_often(
    kinds: &mut Sequence<CommitKind>,
    kind: CommitKind,
    count: u32,
) -> Result<(), OutOfMemory>
    ensures { OnOk result (kinds.new ≡ kinds.old ++ replicate count kind) }
{
    for _ in 0..count {
        kinds.push(kind)?;
    }
    Ok(())
}
