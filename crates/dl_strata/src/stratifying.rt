//! A log cut into strata.
ghost use Rattle.std.specs.Prelude.{◌≡◌, ◌+◌, ◌≤◌, length, IfOk, OnOk};
ghost use Rattle.spec_log.specs.declared.LogParts.{LogParts};
ghost use Rattle.spec_log.specs.Log.{IsLog};
ghost use Rattle.spec_play.specs.Plays.{FitsImage, Played, opened, play, play_one};
ghost use Rattle.spec_play.specs.Walks.{walked as walk_of};
ghost use Rattle.spec_strata.specs.Making.{Cuts, actor_cut, cut_off, cut_on, made, no_cuts};
ghost use Rattle.dl_serial.specs.Walked.{walked_in};
ghost use Rattle.dl_strata.specs.Cutting.{CanAdd, HasCut, IsNextCommit};
ghost use Rattle.dl_strata.specs.Stratifying.{IsStratified};

use crate::cutter::Cutter;
use crate::sizes::sizes_of;
use dl_elf::Image;
use dl_entry::{Actor, Commit, CommitKind, End, OutOfMemory, Sequence, Why};
use dl_logfmt::{copy_dmas, copy_inputs};
use dl_mode::{Noting, OrderAndSize, OrderOnly, PicoLog};
use dl_serial::{Footprint, Player, Walked, walk};
use spec_log::{Log, ModeName};
use spec_play::WalkEnd;
use spec_strata::{Strata, StrataParts, Stratum};
use std::alloc::Global;

/// What a log comes to that is cut into strata on an image: the strata, if it fits the image; else the number of the commit at
/// which its play diverges, and why.
#[derive(Debug, Drop)]
pub enum Stratified {
    Made(Strata),
    Diverged(u32, Why),
}

/// Cuts a log into strata on an image that it fits: each chunk joins the present stratum, unless it conflicts with one of
/// another thread there, or its thread has 255 there. The log is walked twice: to its end, and then with the footprints of its
/// chunks. Image and log are only read.
pub fn stratify(alloc: Global, image: &Image, log: &Log) -> Result<Stratified, OutOfMemory>
    ensures { let i = image.now in
        IfOk result (λ stratified. IsStratified log.now i.bytes i.entry stratified) }
{
    let walked = walk(alloc, image, log, log.parts().count)?;
    let WalkEnd::Ended(end) = walked.end else {
        unreachable!();
    };
    match end {
        End::Complete(_) => Ok(Stratified::Made(made(alloc, image, log, &walked)?)),
        End::Diverged(index, why) => Ok(Stratified::Diverged(index, why)),
        End::At(_) => unreachable!(),
    }
}

// The strata of a log that was walked to its end, and fits its image.
fn made(alloc: Global, image: &Image, log: &Log, walked: &Walked) -> Result<Strata, OutOfMemory>
    requires walked { let i = image.now in walked_in walked.now ≡ walk_of log.now i.bytes i.entry log.now.count }
    requires fits { FitsImage log.now image.now.bytes image.now.entry }
    ensures { IfOk result (λ v. v ≡ made log.now image.now.bytes image.now.entry) }
{
    let counted = walked.state.threads.len();
    let commits = walked.commits.as_slice();
    let parts = log.parts();
    Ok(Strata::new(StrataParts {
        counted,
        threads: parts.threads,
        s: parts.s,
        strata: cut(alloc, image, log, commits, counted)?,
        sizes: sizes_of(alloc, &parts.sizes, commits, counted)?,
        interrupts: Sequence::from_slice(alloc, parts.interrupts.as_slice())?,
        inputs: copy_inputs(alloc, parts.inputs.as_slice())?,
        dmas: copy_dmas(alloc, parts.dmas.as_slice())?,
    }))
}

// The commits of its play in strata that count so many threads.
fn cut(
    alloc: Global,
    image: &Image,
    log: &Log,
    commits: &[Commit],
    counted: u8,
) -> Result<Sequence<Stratum>, OutOfMemory>
    requires fits { FitsImage log.now image.now.bytes image.now.entry }
    requires commits { commits.now ≡ (play log.now image.now.bytes image.now.entry).progress.commits }
    requires counted { counted ≡ length (play log.now image.now.bytes image.now.entry).threads }
    ensures { let y = opened log.now image.now.bytes image.now.entry in
        IfOk result (λ strata. strata ≡ cut_off counted (cut_on counted log.now y commits.now no_cuts)) }
{
    match log.parts().mode {
        ModeName::OrderSize => cut_in::<OrderAndSize>(alloc, image, log, commits, counted),
        ModeName::OrderOnly => cut_in::<OrderOnly>(alloc, image, log, commits, counted),
        ModeName::Picolog => cut_in::<PicoLog>(alloc, image, log, commits, counted),
    }
}

fn cut_in<M: Noting>(
    alloc: Global,
    image: &Image,
    log: &Log,
    commits: &[Commit],
    counted: u8,
) -> Result<Sequence<Stratum>, OutOfMemory>
    requires mode { log.now.mode ≡ M.mode }
    requires good { IsLog log.now }
    requires fits { FitsImage log.now image.now.bytes image.now.entry }
    requires commits { commits.now ≡ (play log.now image.now.bytes image.now.entry).progress.commits }
    requires counted { counted ≡ length (play log.now image.now.bytes image.now.entry).threads }
    ensures { let y = opened log.now image.now.bytes image.now.entry in
        IfOk result (λ strata. strata ≡ cut_off counted (cut_on counted log.now y commits.now no_cuts)) }
{
    let mut player = Player::<M>::first(alloc, image, log)?;
    let mut cutter = Cutter::new(alloc, counted, image.bytes().len() / 4)?;
    let mut footprint = Footprint::new(alloc);
    for commit in commits {
        player.look_on(&mut footprint)?;
        add(&mut cutter, commit, &footprint)?;
    }
    cutter.finish()
}

// Adds the next commit of a play. A chunk has this footprint.
fn add(cutter: &mut Cutter, commit: &Commit, footprint: &Footprint) -> Result<(), OutOfMemory>
    requires { CanAdd cutter.old commit.now footprint.now }
    ensures counted { OnOk result (cutter.new.counted ≡ cutter.old.counted) }
    ensures stratum { OnOk result (cutter.new.table.stratum ≤ cutter.old.table.stratum + 1) }
    ensures words { OnOk result (length cutter.new.table.touches ≡ length cutter.old.table.touches) }
    ensures cut { (log : LogParts) (y : Played) (x : Cuts)
        → IsNextCommit log y commit.now footprint.now → HasCut cutter.old y x → let c = commit.now in
        OnOk result (HasCut cutter.new (play_one log y) (actor_cut cutter.old.counted log y c.actor c.kind x)) }
{
    match (commit.actor, commit.kind) {
        (Actor::Thread(thread), CommitKind::Chunk) => cutter.add_chunk(thread, footprint),
        (Actor::Thread(thread), CommitKind::Serial) => cutter.add_alone(Stratum::Serial(thread)),
        (Actor::Thread(_), CommitKind::Dma | CommitKind::Piece) => unreachable!(),
        (Actor::Dma, _) => cutter.add_alone(Stratum::Dma),
    }
}
