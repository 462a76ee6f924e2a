//! From a number to what its drill says.
ghost use Rattle.std.specs.Prelude.{◌≡◌, ◌++◌, List, [], codes, IfOk};
ghost use Rattle.dl_run.specs.Ran.{IsOver};
ghost use Rattle.spec_protocol.specs.declared.event.Event.{Event};
ghost use Rattle.spec_run.specs.Texts.{summary_text};
ghost use Rattle.spec_program.specs.Drills.{drill_text, recorded_log, recording, recording_events, replaying};
ghost use Rattle.spec_program.specs.Lines.{line};

use crate::setup::{recording_setup, replaying_setup};
use dl_entry::OutOfMemory;
use dl_run::{Events, Run, Schedule};
use spec_log::Log;
use std::alloc::Global;

/// The summary of the recording of a generated image, that of the replay of its log, and `equal`, since their accounts are
/// equal. Err only if memory runs out.
pub fn drill(alloc: Global, number: u32) -> Result<Vec<u8>, OutOfMemory>
    ensures { IfOk result (λ text. text.items ≡ drill_text number) }
{
    let recorded = record(alloc, number)?;
    let log = recorded.recording(0)?;
    let replayed = replay(alloc, number, log)?;
    summaries(alloc, &recorded, &replayed)
}

// What both runs come to.
fn summaries(alloc: Global, recorded: &Run, replayed: &Run) -> Result<Vec<u8>, OutOfMemory>
    ensures { IfOk result (λ text. (es fs : List Event) → IsOver es recorded.now → IsOver fs replayed.now
        → text.items ≡ summary_text recorded.now.setup es ++ summary_text replayed.now.setup fs ++ line (codes "equal")) }
{
    let mut text = recorded.summary(alloc)?;
    let second = replayed.summary(alloc)?;
    text.extend_from_slice(&second)?;
    text.extend_from_slice(b"equal\n")?;
    Ok(text)
}

// The recording's run.
fn record(alloc: Global, number: u32) -> Result<Run, OutOfMemory>
    ensures setup { IfOk result (λ run. run.setup ≡ recording number) }
    ensures over { IfOk result (IsOver (recording_events number)) }
{
    let setup = recording_setup(alloc, number)?;
    let schedule = Schedule::Seeded {
        seed: u64::from(number),
        events: 20_000,
    };
    Run::new(alloc, setup, &schedule)
}

// The run of the log's replay, without a schedule.
fn replay(alloc: Global, number: u32, log: Log) -> Result<Run, OutOfMemory>
    requires { log ≡ recorded_log number }
    ensures setup { IfOk result (λ run. run.setup ≡ replaying number) }
    ensures over { IfOk result (IsOver []) }
{
    let setup = replaying_setup(alloc, number, log)?;
    let schedule = Schedule::Script(Events::new(alloc));
    Run::new(alloc, setup, &schedule)
}
