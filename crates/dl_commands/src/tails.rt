//! `tail NAME`: the last part of a recording, played from its base on, as an account.
ghost use Rattle.std.specs.Prelude.{◌≡◌, Some, IfOk, IfErr, OnOk};
ghost use Rattle.dl_files.specs.Contents.{Contents};
ghost use Rattle.dl_words.specs.Commands as commands;
ghost use Rattle.spec_program.specs.commands.Tail.{end_of as end_in, finish, outcome, reads};
ghost use Rattle.dl_gather.specs.Halts.{Halts, IsNotUsage};
ghost use Rattle.dl_commands.specs.Jobs.{IsJobOf, finish_of};
ghost use Rattle.dl_commands.specs.Untold.{MayFinish};

use crate::job::{Job, said};
use dl_account::{CommitLists, account_text};
use dl_entry::{End, OutOfMemory};
use dl_files::Files;
use dl_gather::{Halt, read_good_tail};
use dl_serial::{WalkEnd, walk_tail};
use dl_tail::Tail;
use std::alloc::Global;

/// The tail in that file, played.
pub fn play_tail<F: Files>(alloc: Global, files: &mut F, name: &str) -> Result<Job, Halt>
    ensures job { IfOk result (λ job. (m : Contents) → (F.seen files.old).known ≡ Some m
        → IsJobOf (outcome m name.now) job) }
    ensures may { IfOk result (λ job.
        MayFinish (F.seen files.old).known (commands.Tail name.now) (finish_of job)) }
    ensures halt { IfErr result (Halts (λ m. outcome m name.now) (λ m. reads name.now)
        (F.seen files.old) (F.seen files.new)) }
    ensures usage { IfErr result IsNotUsage }
    ensures same { OnOk result (F.seen files.new ≡ F.seen files.old) }
{
    let tail = read_good_tail(alloc, files, name)?;
    Ok(tell_tail(alloc, &tail)?)
}

// The account begins with the commit that has the base as its number.
fn tell_tail(alloc: Global, tail: &Tail) -> Result<Job, OutOfMemory>
    ensures { IfOk result (λ job. finish_of job ≡ finish tail.now) }
{
    let walked = walk_tail(alloc, tail)?;
    let end = end_of(walked.end);
    let text = account_text(
        alloc,
        CommitLists::of(walked.commits.as_slice()),
        &walked.state.threads,
        &walked.state.request,
        &walked.state.memory,
        &end,
        tail.parts().base,
    )?;
    Ok(said(alloc, text, matches!(end, End::Diverged(..))))
}

fn end_of(end: WalkEnd) -> End
    ensures { result ≡ end_in end }
{
    match end {
        WalkEnd::Ended(end) => end,
        WalkEnd::Reached(commits) => End::At(commits),
    }
}
