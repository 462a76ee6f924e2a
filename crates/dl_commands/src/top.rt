//! The program's one call.
ghost use Rattle.std.specs.Prelude.{◌≡◌, ◌⊎◌, ℕ, List, None, Some, Ok, true, false};
ghost use Rattle.dl_files.specs.Contents.{Contents, IsLast};
ghost use Rattle.dl_files.specs.Count.{Rose};
ghost use Rattle.dl_files.specs.Seen.{FailsOnce};
ghost use Rattle.spec_program.specs.declared.status.Status.{Status};
ghost use Rattle.dl_words.specs.Commands.{CommandValues, Run, Drill, command_of};
ghost use Rattle.spec_program.specs.Asked.{IsDone, outcome_of, reads_of};
ghost use Rattle.spec_program.specs.Ends.{Stands, Took, TookAll, is_done, is_refusal, is_of_files, is_of_sink};
ghost use Rattle.spec_program.specs.Headline.{Headline};
ghost use Rattle.spec_program.specs.Lines.{absent_line as absent_text, fault_line as fault_text, usage_line as usage_text};
ghost use Rattle.spec_program.specs.Outcomes.{Finish, status_in, text_in};
ghost use Rattle.spec_program.specs.Outside.{in_memory, outside};
ghost use Rattle.dl_commands.specs.Ended.{IsLineSaid, IsRefusalSaid};
ghost use Rattle.dl_commands.specs.Jobs.{writes_of};
ghost use Rattle.dl_commands.specs.Performed.{IsPerformed};
ghost use Rattle.dl_commands.specs.Texts.{texts};
ghost use Rattle.dl_commands.specs.Untold.{IsOwn, MayFinishIf, MaySay};
ghost use Rattle.dl_gather.specs.Names.{IsNamed};

use crate::ending::{fail, say, stop};
use crate::job::Job;
use crate::preparing::prepare;
use crate::writing::Stop;
use crate::written::write_all;
use dl_files::{Files, GoodFiles, GoodSink, Sink};
use spec_program::status::Status;
use std::alloc::Global;

/// Does what the words ask for, over the files and the sink, and answers how that ended.
///
/// `run PLAN` runs the machine of the plan: it writes the logs, the accounts, the console and the report that the plan names,
/// and puts the summary into the sink. `inspect LOG` puts the log as text, and `walk IMAGE MEMORY LOG` the account of the
/// log's play on the image; `interval` puts its commits from one number up to another, and `watch`, `who` and `when` tell of
/// its stores to a word. `tail NAME` puts the account of a tail's play. `strata IMAGE MEMORY LOG NAME` writes the strata of a log,
/// and `migrate LOG NAME` writes a log in version 2. `make NUMBER NAME` writes a generated image, and `drill NUMBER` records and
/// replays one in memory. `asm SOURCE NAME` writes the image of a source.
pub fn delorean<F: Files, O: Sink>(
    alloc: Global,
    words: &[&str],
    files: &mut F,
    out: &mut O,
) -> Status
    // What 0 and 1 say of a run.
    ensures headline { (plan : List ℕ) (m : Contents)
        → command_of (texts words.now) ≡ Some (Run plan) → (F.seen files.old).known ≡ Some m → is_done result ≡ true
        → Headline plan m (F.seen files.new).known (O.taken out.old) (O.taken out.new) result }

    // What they say of each command.
    ensures done { (command : CommandValues) (m : Contents)
        → command_of (texts words.now) ≡ Some command → (F.seen files.old).known ≡ Some m → is_done result ≡ true
        → IsDone command m (F.seen files.new).known (O.taken out.old) (O.taken out.new) result }

    // A drill is done, for every number and over any files, except if memory runs out or the sink fails; no file fails or is
    // changed.
    ensures drill { (number : ℕ) → command_of (texts words.now) ≡ Some (Drill number)
        → ((result ≡ Status.Done) ⊎ ((result ≡ Status.Sink) ⊎ (result ≡ Status.Memory)))
        × ((F.seen files.new).faults ≡ (F.seen files.old).faults)
        × ((F.seen files.new).changes ≡ (F.seen files.old).changes) }

    // What each answer says.
    ensures stands { (m : Contents) → (F.seen files.old).known ≡ Some m
        → Stands (outcome_of (texts words.now) m) (reads_of (texts words.now) m) m
        (outside (F.seen files.old) (O.taken out.old) (O.count out.old))
        (outside (F.seen files.new) (O.taken out.new) (O.count out.new))
        result }

    // The line of a refusal, and of a fault, is said, whole where the sink's count did not rise.
    ensures whole { (m : Contents) → (F.seen files.old).known ≡ Some m
        → is_refusal result ≡ true → (Rose (O.count out.old) (O.count out.new) → ⊥)
        → TookAll (text_in (outcome_of (texts words.now) m)) (O.taken out.old) (O.taken out.new) }
    ensures fault_said { result ≡ Status.Fault → (name : List ℕ) × IsOwn (texts words.now) (F.seen files.old).known name
        × IsLast (F.seen files.new).last name
        × IsLineSaid (fault_text name) (O.taken out.old) (O.taken out.new) (O.count out.old) (O.count out.new) }

    // What each answer shows, also where no contents are known.
    ensures files_steady { is_of_files result ≡ false → (F.seen files.new).faults ≡ (F.seen files.old).faults }
    ensures sink_steady { is_of_sink result ≡ false → O.count out.new ≡ O.count out.old }
    ensures may { is_done result ≡ true → (finish : Finish)
        × MayFinishIf (F.seen files.old).known (command_of (texts words.now)) finish
        × (result ≡ status_in (Ok finish)) × TookAll finish.text (O.taken out.old) (O.taken out.new) }
    ensures said { (text : List ℕ) × MaySay (texts words.now) (F.seen files.old).known text
        × Took text (O.taken out.old) (O.taken out.new) }
    ensures usage_said { result ≡ Status.Usage → Took usage_text (O.taken out.old) (O.taken out.new) }
    ensures usage_whole { result ≡ Status.Usage → (Rose (O.count out.old) (O.count out.new) → ⊥)
        → TookAll usage_text (O.taken out.old) (O.taken out.new) }
    ensures usage { result ≡ Status.Usage → command_of (texts words.now) ≡ None }
    ensures no_command { command_of (texts words.now) ≡ None
        → (result ≡ Status.Usage) ⊎ (result ≡ Status.Memory) }
    ensures no_command_said { command_of (texts words.now) ≡ None
        → Took usage_text (O.taken out.old) (O.taken out.new) }
    ensures fault { result ≡ Status.Fault → Rose (F.seen files.old).faults (F.seen files.new).faults }
    ensures sink { result ≡ Status.Sink → Rose (O.count out.old) (O.count out.new) }
    ensures absent { (F.seen files.old).known ≡ None → result ≡ Status.Absent
        → Rose (F.seen files.old).faults (F.seen files.new).faults }
    ensures absent_said { result ≡ Status.Absent
        → (name : List ℕ) × IsNamed (F.seen files.old).known (reads_of (texts words.now)) name
        × ((F.seen files.old).known ≡ None → IsLast (F.seen files.new).last name)
        × IsLineSaid (absent_text name) (O.taken out.old) (O.taken out.new) (O.count out.old) (O.count out.new) }
    ensures memory_said { result ≡ Status.Memory → ((F.seen files.new).faults ≡ (F.seen files.old).faults → ⊥)
        → (name : List ℕ) × IsOwn (texts words.now) (F.seen files.old).known name × IsLast (F.seen files.new).last name
        × (Took (fault_text name) (O.taken out.old) (O.taken out.new) ⊎ Took (absent_text name) (O.taken out.old) (O.taken out.new)) }

    // The line of a refusal has the form of its kind.
    ensures line { is_refusal result ≡ true
        → IsRefusalSaid result (O.taken out.old) (O.taken out.new) (O.count out.old) (O.count out.new) }

    // At most one call of the files fails, and none that changes a file comes after it. After a refusal, and after a read that
    // failed, no file has changed.
    ensures once { FailsOnce (F.seen files.old) (F.seen files.new) }
    ensures refused_kept { is_refusal result ≡ true → (F.seen files.new).changes ≡ (F.seen files.old).changes }
    ensures unread_kept { ((F.seen files.new).unread ≡ (F.seen files.old).unread → ⊥)
        → (F.seen files.new).changes ≡ (F.seen files.old).changes }

    // Where no count rose, the answer is the outcome's, or memory ran out.
    ensures complete { (m : Contents) → (F.seen files.old).known ≡ Some m
        → (Rose (F.seen files.old).faults (F.seen files.new).faults → ⊥)
        → (Rose (O.count out.old) (O.count out.new) → ⊥)
        → (result ≡ status_in (outcome_of (texts words.now) m)) ⊎ (result ≡ Status.Memory) }
{
    match prepare(alloc, words, files) {
        Ok(job) => perform(alloc, &job, files, out),
        Err(halt) => stop(out, halt),
    }
}

/// The same over files and a sink in memory that never fail: then no fault is answered, of a file or of the sink.
pub fn delorean_in_memory(
    alloc: Global,
    words: &[&str],
    files: &mut GoodFiles,
    out: &mut GoodSink,
) -> Status
    ensures done { (command : CommandValues)
        → command_of (texts words.now) ≡ Some command → is_done result ≡ true
        → IsDone command files.old (Some files.new) (Some out.old) (Some out.new) result }
    ensures stands { Stands (outcome_of (texts words.now) files.old) (reads_of (texts words.now) files.old) files.old
        (in_memory files.old out.old) (in_memory files.new out.new) result }
    ensures whole { is_refusal result ≡ true
        → TookAll (text_in (outcome_of (texts words.now) files.old)) (Some out.old) (Some out.new) }
    ensures outcome { (result ≡ status_in (outcome_of (texts words.now) files.old))
        ⊎ (result ≡ Status.Memory) }
    ensures no_fault { result ≡ Status.Fault → ⊥ }
    ensures no_sink { result ≡ Status.Sink → ⊥ }
{
    delorean(alloc, words, files, out)
}

// Writes the files, and then says the text.
fn perform<F: Files, O: Sink>(alloc: Global, job: &Job, files: &mut F, out: &mut O) -> Status
    ensures ends { IsPerformed job.now.diverged (writes_of job.now.writes.items) job.now.text.items
        (outside (F.seen files.old) (O.taken out.old) (O.count out.old))
        (outside (F.seen files.new) (O.taken out.new) (O.count out.new))
        result }
    ensures once { FailsOnce (F.seen files.old) (F.seen files.new) }
{
    match write_all(files, &job.writes) {
        Ok(()) => say(out, job),
        Err(Stop::Failed(i)) => fail(alloc, out, job.writes[i].name.as_str()),
        Err(Stop::OutOfMemory) => Status::Memory,
    }
}
