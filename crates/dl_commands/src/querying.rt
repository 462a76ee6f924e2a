//! `watch`, `who` and `when`: a log played on its image, and what is asked about one word of the memory.
ghost use Rattle.std.specs.Prelude.{◌≡◌, ◌++◌, Some, IfOk, IfErr, OnOk};
ghost use Rattle.dl_files.specs.Contents.{Contents};
ghost use Rattle.dl_words.specs.Commands as commands;
ghost use Rattle.dl_words.specs.Commands.{query_view};
ghost use Rattle.spec_query.specs.Texts.{end_text};
ghost use Rattle.spec_program.specs.commands.Query.{answer, finish, outcome, stores};
ghost use Rattle.spec_program.specs.Operands.{playback_reads};
ghost use Rattle.dl_gather.specs.Halts.{Halts, IsNotUsage};
ghost use Rattle.dl_gather.specs.Inputs.{playback_view};
ghost use Rattle.dl_commands.specs.Jobs.{IsJobOf, finish_of};
ghost use Rattle.dl_commands.specs.Untold.{MayFinish};

use crate::job::{Job, said};
use crate::walking::whole_end;
use dl_entry::{End, OutOfMemory};
use dl_files::Files;
use dl_gather::{Halt, PlaybackRead, read_playback};
use dl_query::{Walked, last_text, lines_text, watch, when, when_text, who, word_of};
use dl_serial::walk;
use dl_words::{Query, Question};
use std::alloc::Global;

/// The answer to a question about the log in the one file, played on the image in the other.
pub fn answer_query<F: Files>(alloc: Global, files: &mut F, query: &Query<'_>) -> Result<Job, Halt>
    ensures job { IfOk result (λ job. (m : Contents) → (F.seen files.old).known ≡ Some m
        → IsJobOf (outcome m (query_view query.now)) job) }
    ensures may { IfOk result (λ job.
        MayFinish (F.seen files.old).known (commands.Query (query_view query.now)) (finish_of job)) }
    ensures halt { IfErr result (Halts (λ m. outcome m (query_view query.now))
        (λ m. playback_reads (query_view query.now).playback) (F.seen files.old) (F.seen files.new)) }
    ensures usage { IfErr result IsNotUsage }
    ensures same { OnOk result (F.seen files.new ≡ F.seen files.old) }
{
    let read = read_playback(alloc, files, &query.playback)?;
    Ok(answer_read(alloc, &read, query)?)
}

// The log is played to its end.
fn answer_read(alloc: Global, read: &PlaybackRead, query: &Query<'_>) -> Result<Job, OutOfMemory>
    ensures { IfOk result (λ job. finish_of job ≡ finish (query_view query.now) (playback_view read.now)) }
{
    let walked = walk(alloc, &read.image, &read.log, read.log.parts().count)?;
    let end = whole_end(walked.end);
    let text = answer_walked(alloc, &walked, end, read, query)?;
    Ok(said(alloc, text, matches!(end, End::Diverged(..))))
}

// What is asked about the word, over a walk that has come to this end.
fn answer_walked(
    alloc: Global,
    walked: &Walked,
    end: End,
    read: &PlaybackRead,
    query: &Query<'_>,
) -> Result<Vec<u8>, OutOfMemory>
    requires { walked.now.stores ≡ stores (playback_view read.now) }
    ensures { let q = query.now in IfOk result (λ text.
        text.items ≡ answer q.question q.address (playback_view read.now) ++ end_text end) }
{
    let addr = query.address;
    match query.question {
        Question::Watch => lines_text(alloc, watch(alloc, walked, addr)?.as_slice(), end),
        Question::Who { before } => last_text(alloc, who(walked, addr, before), end),
        Question::When { value } => {
            let first = word_of(&read.image, addr);
            when_text(alloc, when(walked, first, addr, value), end)
        }
    }
}
