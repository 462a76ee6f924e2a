//! `interval IMAGE MEMORY LOG EVERY I J`: the commits of a log from one number up to another, and the state after them.
ghost use Rattle.std.specs.Prelude.{◌≡◌, ◌≤◌, Some, IfOk, IfErr, OnOk};
ghost use Rattle.dl_files.specs.Contents.{Contents};
ghost use Rattle.dl_words.specs.Commands as commands;
ghost use Rattle.dl_words.specs.Commands.{interval_view};
ghost use Rattle.spec_program.specs.commands.Interval.{finish, outcome};
ghost use Rattle.spec_program.specs.Operands.{playback_reads};
ghost use Rattle.dl_gather.specs.Halts.{Halts, IsNotUsage};
ghost use Rattle.dl_gather.specs.Inputs.{playback_view};
ghost use Rattle.dl_commands.specs.Jobs.{IsJobOf, finish_of};
ghost use Rattle.dl_commands.specs.Untold.{MayFinish};

use crate::job::{Job, said};
use dl_entry::{End, OutOfMemory};
use dl_files::Files;
use dl_gather::{Halt, PlaybackRead, read_playback};
use dl_trail::Trail;
use dl_words::Interval;
use std::alloc::Global;

/// The slice of the log in the one file, played on the image in the other.
pub fn tell_interval<F: Files>(
    alloc: Global,
    files: &mut F,
    asked: &Interval<'_>,
) -> Result<Job, Halt>
    ensures job { IfOk result (λ job. (m : Contents) → (F.seen files.old).known ≡ Some m
        → IsJobOf (outcome m (interval_view asked.now)) job) }
    ensures may { IfOk result (λ job.
        MayFinish (F.seen files.old).known (commands.Interval (interval_view asked.now)) (finish_of job)) }
    ensures halt { IfErr result (Halts (λ m. outcome m (interval_view asked.now))
        (λ m. playback_reads (interval_view asked.now).playback) (F.seen files.old) (F.seen files.new)) }
    ensures usage { IfErr result IsNotUsage }
    ensures same { OnOk result (F.seen files.new ≡ F.seen files.old) }
{
    let read = read_playback(alloc, files, &asked.playback)?;
    Ok(tell_read(alloc, &read, asked)?)
}

// A state is kept after so many commits each, and the slice starts from the nearest one.
fn tell_read(alloc: Global, read: &PlaybackRead, asked: &Interval<'_>) -> Result<Job, OutOfMemory>
    requires { asked.now.from ≤ asked.now.to }
    ensures { IfOk result (λ job. finish_of job ≡ finish (interval_view asked.now) (playback_view read.now)) }
{
    let trail = Trail::new(alloc, &read.image, &read.log, asked.every)?;
    let slice = trail.slice(asked.from, asked.to)?;
    Ok(said(alloc, slice.bytes, matches!(slice.end, End::Diverged(..))))
}
