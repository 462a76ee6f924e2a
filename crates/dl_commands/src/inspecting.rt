//! `inspect LOG`: a log as text.
ghost use Rattle.std.specs.Prelude.{◌≡◌, Some, IfOk, IfErr, OnOk};
ghost use Rattle.dl_files.specs.Contents.{Contents};
ghost use Rattle.dl_words.specs.Commands.{Inspect};
ghost use Rattle.spec_program.specs.commands.Inspect.{outcome, reads};
ghost use Rattle.dl_gather.specs.Halts.{Halts, IsNotUsage};
ghost use Rattle.dl_commands.specs.Jobs.{IsJobOf, finish_of};
ghost use Rattle.dl_commands.specs.Untold.{MayFinish};

use crate::job::{Job, said};
use dl_files::Files;
use dl_gather::{Halt, read_good_log};
use dl_inspect::inspect_text;
use std::alloc::Global;

/// The log in that file, inspected.
pub fn inspect<F: Files>(alloc: Global, files: &mut F, log: &str) -> Result<Job, Halt>
    ensures job { IfOk result (λ job. (m : Contents) → (F.seen files.old).known ≡ Some m
        → IsJobOf (outcome m log.now) job) }
    ensures may { IfOk result (λ job.
        MayFinish (F.seen files.old).known (Inspect log.now) (finish_of job)) }
    ensures halt { IfErr result (Halts (λ m. outcome m log.now) (λ m. reads log.now)
        (F.seen files.old) (F.seen files.new)) }
    ensures usage { IfErr result IsNotUsage }
    ensures same { OnOk result (F.seen files.new ≡ F.seen files.old) }
{
    let log = read_good_log(alloc, files, log)?;
    let text = inspect_text(alloc, &log)?;
    Ok(said(alloc, text, false))
}
