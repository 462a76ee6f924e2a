//! `drill NUMBER`: a generated image recorded and replayed.
ghost use Rattle.std.specs.Prelude.{◌≡◌, IfOk};
ghost use Rattle.spec_program.specs.commands.Drill.{finish};
ghost use Rattle.dl_commands.specs.Jobs.{finish_of};

use crate::job::{Job, said};
use dl_drill::drill;
use dl_entry::OutOfMemory;
use std::alloc::Global;

/// The summaries of the recording and of the replay, whose accounts are equal.
pub fn drill_number(alloc: Global, number: u32) -> Result<Job, OutOfMemory>
    ensures { IfOk result (λ job. finish_of job ≡ finish number) }
{
    let text = drill(alloc, number)?;
    Ok(said(alloc, text, false))
}
