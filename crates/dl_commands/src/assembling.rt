//! `asm SOURCE NAME`: the file of a source under a name.
ghost use Rattle.std.specs.Prelude.{◌≡◌, Ok, Some, IfOk, IfErr, OnOk};
ghost use Rattle.dl_files.specs.Contents.{Contents};
ghost use Rattle.dl_words.specs.Commands.{Asm};
ghost use Rattle.spec_program.specs.commands.Asm.{outcome, outcome_in, reads};
ghost use Rattle.spec_program.specs.Sources.{assembled};
ghost use Rattle.dl_gather.specs.Halts.{Halts, IsNotUsage, Refuses};
ghost use Rattle.dl_commands.specs.Jobs.{IsJobOf, finish_of};
ghost use Rattle.dl_commands.specs.Untold.{MayFinish};

use crate::job::{Job, filed};
use dl_asm::{AsmError, assemble};
use dl_files::Files;
use dl_gather::{Halt, assembled_line, read_file, source_line};
use spec_program::status::Refusal;
use std::alloc::Global;

/// The file of the source of that name, to be written under the other.
pub fn assemble_source<F: Files>(
    alloc: Global,
    files: &mut F,
    source: &str,
    name: &str,
) -> Result<Job, Halt>
    ensures job { IfOk result (λ job. (m : Contents) → (F.seen files.old).known ≡ Some m
        → IsJobOf (outcome m source.now name.now) job) }
    ensures may { IfOk result (λ job.
        MayFinish (F.seen files.old).known (Asm source.now name.now) (finish_of job)) }
    ensures halt { IfErr result (Halts (λ m. outcome m source.now name.now) (λ m. reads source.now)
        (F.seen files.old) (F.seen files.new)) }
    ensures usage { IfErr result IsNotUsage }
    ensures same { OnOk result (F.seen files.new ≡ F.seen files.old) }
{
    let bytes = read_file(alloc, files, source)?;
    assemble_bytes(alloc, &bytes, name)
}

fn assemble_bytes(alloc: Global, bytes: &[u8], name: &str) -> Result<Job, Halt>
    ensures job { IfOk result (IsJobOf (outcome_in name.now bytes.now)) }
    ensures halt { IfErr result (Refuses (outcome_in name.now bytes.now)) }
{
    let file = assembly(alloc, bytes)?;
    let text = assembled_line(alloc, file.len())?;
    Ok(filed(alloc, name, file, text)?)
}

// The file; the first line that breaks a rule is refused.
fn assembly(alloc: Global, bytes: &[u8]) -> Result<Vec<u8>, Halt>
    ensures file { IfOk result (λ file. assembled bytes.now ≡ Ok file.items) }
    ensures halt { IfErr result (Refuses (assembled bytes.now)) }
{
    match assemble(alloc, bytes) {
        Ok(file) => Ok(file),
        Err(AsmError::Refused { line, rule }) => Err(Halt::Refused(
            Refusal::Source,
            source_line(alloc, line, rule.number())?,
        )),
        Err(AsmError::OutOfMemory) => Err(Halt::OutOfMemory),
    }
}
