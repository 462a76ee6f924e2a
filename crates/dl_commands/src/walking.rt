//! `walk IMAGE MEMORY LOG`: a log played on its image, as an account.
ghost use Rattle.std.specs.Prelude.{◌≡◌, Some, IfOk, IfErr, OnOk};
ghost use Rattle.dl_files.specs.Contents.{Contents};
ghost use Rattle.dl_words.specs.Commands.{Walk, playback_view as named};
ghost use Rattle.spec_play.specs.declared.WalkEnd.{WalkEnd};
ghost use Rattle.spec_program.specs.commands.Walk.{finish, outcome};
ghost use Rattle.spec_program.specs.Operands.{playback_reads};
ghost use Rattle.dl_gather.specs.Halts.{Halts, IsNotUsage};
ghost use Rattle.dl_gather.specs.Inputs.{playback_view};
ghost use Rattle.dl_commands.specs.Jobs.{IsJobOf, finish_of};
ghost use Rattle.dl_commands.specs.Untold.{MayFinish};
ghost use Rattle.dl_commands.specs.Walks.{HasEnded};

use crate::job::{Job, said};
use dl_account::{CommitLists, account_text};
use dl_entry::{End, OutOfMemory};
use dl_files::Files;
use dl_gather::{Halt, PlaybackRead, read_playback};
use dl_serial::{WalkEnd, walk};
use dl_words::Playback;
use std::alloc::Global;

/// The log in the one file, played on the image in the other.
pub fn walk_log<F: Files>(
    alloc: Global,
    files: &mut F,
    playback: &Playback<'_>,
) -> Result<Job, Halt>
    ensures job { IfOk result (λ job. (m : Contents) → (F.seen files.old).known ≡ Some m
        → IsJobOf (outcome m (named playback.now)) job) }
    ensures may { IfOk result (λ job.
        MayFinish (F.seen files.old).known (Walk (named playback.now)) (finish_of job)) }
    ensures halt { IfErr result (Halts (λ m. outcome m (named playback.now)) (λ m. playback_reads (named playback.now))
        (F.seen files.old) (F.seen files.new)) }
    ensures usage { IfErr result IsNotUsage }
    ensures same { OnOk result (F.seen files.new ≡ F.seen files.old) }
{
    let read = read_playback(alloc, files, playback)?;
    Ok(walk_whole(alloc, &read)?)
}

// To the end of the log.
fn walk_whole(alloc: Global, read: &PlaybackRead) -> Result<Job, OutOfMemory>
    ensures { IfOk result (λ job. finish_of job ≡ finish (playback_view read.now)) }
{
    let walked = walk(alloc, &read.image, &read.log, read.log.parts().count)?;
    let end = whole_end(walked.end);
    let text = account_text(
        alloc,
        CommitLists::of(walked.commits.as_slice()),
        &walked.state.threads,
        &walked.state.request,
        &walked.state.memory,
        &end,
        0,
    )?;
    Ok(said(alloc, text, matches!(end, End::Diverged(..))))
}

/// How a walk ended that went to the end of its log.
pub fn whole_end(end: WalkEnd) -> End
    requires { HasEnded end }
    ensures { end ≡ WalkEnd.Ended result }
{
    match end {
        WalkEnd::Ended(end) => end,
        WalkEnd::Reached(_) => unreachable!(),
    }
}
