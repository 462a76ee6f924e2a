//! From the words of a command to what is to be written and said, over the files.
ghost use Rattle.std.specs.Prelude.{◌≡◌, ◌≢◌, List, ℕ, None, Some, IfOk, IfErr, IsOk, OnOk};
ghost use Rattle.dl_files.specs.Contents.{Contents};
ghost use Rattle.dl_words.specs.Commands.{Drill, Run, command_of, command_view};
ghost use Rattle.spec_program.specs.Asked.{outcome_for, outcome_of, reads_for, reads_of};
ghost use Rattle.spec_program.specs.commands.Run.{HasRun};
ghost use Rattle.dl_gather.specs.Halts.{Halts, IsNotUsage, IsUsage};
ghost use Rattle.dl_commands.specs.Jobs.{IsDrill, IsJobOf, finish_of};
ghost use Rattle.dl_commands.specs.Texts.{texts};
ghost use Rattle.dl_commands.specs.Untold.{MayFinish, MayFinishIf};

use crate::assembling::assemble_source;
use crate::drilling::drill_number;
use crate::inspecting::inspect;
use crate::intervals::tell_interval;
use crate::job::Job;
use crate::making::make_image;
use crate::migrating::migrate;
use crate::plans::run_plan;
use crate::querying::answer_query;
use crate::stratifying::cut_log;
use crate::tails::play_tail;
use crate::walking::walk_log;
use dl_files::Files;
use dl_gather::{Halt, usage_line};
use dl_words::{Command, read_words};
use spec_program::status::Refusal;
use std::alloc::Global;

/// What the words ask for. Files are read, and none is written.
pub fn prepare<F: Files>(alloc: Global, words: &[&str], files: &mut F) -> Result<Job, Halt>
    ensures job { IfOk result (λ job. (m : Contents) → (F.seen files.old).known ≡ Some m
        → IsJobOf (outcome_of (texts words.now) m) job) }
    ensures limits { (plan : List ℕ) (m : Contents) → command_of (texts words.now) ≡ Some (Run plan)
        → (F.seen files.old).known ≡ Some m → IsOk result → HasRun plan m }
    ensures command { IsOk result → command_of (texts words.now) ≢ None }
    ensures may { IfOk result (λ job.
        MayFinishIf (F.seen files.old).known (command_of (texts words.now)) (finish_of job)) }
    ensures halt { IfErr result (Halts (outcome_of (texts words.now)) (reads_of (texts words.now))
        (F.seen files.old) (F.seen files.new)) }
    ensures usage { IfErr result (IsUsage (command_of (texts words.now))) }
    ensures same { OnOk result (F.seen files.new ≡ F.seen files.old) }
    ensures drill { (number : ℕ) → command_of (texts words.now) ≡ Some (Drill number)
        → IsDrill number result × (F.seen files.new ≡ F.seen files.old) }
{
    match read_words(alloc, words) {
        Ok(Some(command)) => compute_command(alloc, files, command),
        Ok(None) => Err(Halt::Refused(Refusal::Usage, usage_line(alloc)?)),
        Err(_) => Err(Halt::OutOfMemory),
    }
}

fn compute_command<F: Files>(
    alloc: Global,
    files: &mut F,
    command: Command<'_>,
) -> Result<Job, Halt>
    ensures job { IfOk result (λ job. (m : Contents) → (F.seen files.old).known ≡ Some m
        → IsJobOf (outcome_for m (command_view command.entry)) job) }
    ensures limits { (plan : List ℕ) (m : Contents) → command_view command.entry ≡ Run plan
        → (F.seen files.old).known ≡ Some m → IsOk result → HasRun plan m }
    ensures may { IfOk result (λ job.
        MayFinish (F.seen files.old).known (command_view command.entry) (finish_of job)) }
    ensures halt { IfErr result (Halts (λ m. outcome_for m (command_view command.entry))
        (λ m. reads_for m (command_view command.entry)) (F.seen files.old) (F.seen files.new)) }
    ensures usage { IfErr result IsNotUsage }
    ensures same { OnOk result (F.seen files.new ≡ F.seen files.old) }
    ensures drill { (number : ℕ) → command_view command.entry ≡ Drill number
        → IsDrill number result × (F.seen files.new ≡ F.seen files.old) }
{
    match command {
        Command::Run { plan } => run_plan(alloc, files, plan),
        Command::Inspect { log } => inspect(alloc, files, log),
        Command::Walk(playback) => walk_log(alloc, files, &playback),
        Command::Query(query) => answer_query(alloc, files, &query),
        Command::Interval(asked) => tell_interval(alloc, files, &asked),
        Command::Tail { name } => play_tail(alloc, files, name),
        Command::Make { number, name } => Ok(make_image(alloc, number, name)?),
        Command::Drill { number } => Ok(drill_number(alloc, number)?),
        Command::Asm { source, name } => assemble_source(alloc, files, source, name),
        Command::Migrate { log, name } => migrate(alloc, files, log, name),
        Command::Strata { playback, name } => cut_log(alloc, files, &playback, name),
    }
}
