//! `strata IMAGE MEMORY LOG NAME`: a log cut into strata on its image, as a file under a name.
ghost use Rattle.std.specs.Prelude.{◌≡◌, Some, IfOk, IfErr, OnOk, length};
ghost use Rattle.dl_files.specs.Contents.{Contents};
ghost use Rattle.dl_words.specs.Commands as commands;
ghost use Rattle.dl_words.specs.Commands.{playback_view as named};
ghost use Rattle.spec_strata.specs.Bytes.{strata_bytes};
ghost use Rattle.spec_program.specs.commands.Strata.{finish, outcome};
ghost use Rattle.spec_program.specs.Lines.{strata_line as line};
ghost use Rattle.spec_program.specs.Operands.{playback_reads};
ghost use Rattle.spec_program.specs.Outcomes.{filed as filed_so};
ghost use Rattle.dl_gather.specs.Halts.{Halts, IsNotUsage};
ghost use Rattle.dl_gather.specs.Inputs.{playback_view};
ghost use Rattle.dl_commands.specs.Jobs.{IsJobOf, finish_of};
ghost use Rattle.dl_commands.specs.Untold.{MayFinish};

use crate::job::{Job, filed, said};
use dl_entry::{End, OutOfMemory};
use dl_files::Files;
use dl_gather::{Halt, PlaybackRead, read_playback, strata_line};
use dl_query::end_text;
use dl_strata::{Strata, Stratified, stratify, write_strata};
use dl_words::Playback;
use std::alloc::Global;

/// The log in the one file, cut into strata on the image in the other, to be written under the name.
pub fn cut_log<F: Files>(
    alloc: Global,
    files: &mut F,
    playback: &Playback<'_>,
    name: &str,
) -> Result<Job, Halt>
    ensures job { IfOk result (λ job. (m : Contents) → (F.seen files.old).known ≡ Some m
        → IsJobOf (outcome m (named playback.now) name.now) job) }
    ensures may { IfOk result (λ job.
        MayFinish (F.seen files.old).known (commands.Strata (named playback.now) name.now) (finish_of job)) }
    ensures halt { IfErr result (Halts (λ m. outcome m (named playback.now) name.now)
        (λ m. playback_reads (named playback.now)) (F.seen files.old) (F.seen files.new)) }
    ensures usage { IfErr result IsNotUsage }
    ensures same { OnOk result (F.seen files.new ≡ F.seen files.old) }
{
    let read = read_playback(alloc, files, playback)?;
    Ok(cut_read(alloc, &read, name)?)
}

// Where and why the log diverges, if it does; else its strata.
fn cut_read(alloc: Global, read: &PlaybackRead, name: &str) -> Result<Job, OutOfMemory>
    ensures { IfOk result (λ job. finish_of job ≡ finish name.now (playback_view read.now)) }
{
    match stratify(alloc, &read.image, &read.log)? {
        Stratified::Made(strata) => file_strata(alloc, &strata, name),
        Stratified::Diverged(index, why) => {
            let text = end_text(alloc, End::Diverged(index, why))?;
            Ok(said(alloc, text, true))
        }
    }
}

fn file_strata(alloc: Global, strata: &Strata, name: &str) -> Result<Job, OutOfMemory>
    ensures { let bytes = strata_bytes strata.now in IfOk result (λ job.
        finish_of job ≡ filed_so name.now bytes (line (length strata.now.strata) (length bytes))) }
{
    let bytes = write_strata(alloc, strata)?;
    let text = strata_line(alloc, strata.parts().strata.len(), bytes.len())?;
    filed(alloc, name, bytes, text)
}
