//! What a command says at its end: its text, or the line that tells why it stops.
ghost use Rattle.std.specs.Prelude.{◌≡◌};
ghost use Rattle.spec_program.specs.declared.status.Status.{Status};
ghost use Rattle.spec_program.specs.Lines.{fault_line as fault_text};
ghost use Rattle.spec_program.specs.Statuses.{status_of as status_due};
ghost use Rattle.dl_commands.specs.Ended.{Said, SaidLine, Stopped};

use crate::job::Job;
use crate::telling::put_all;
use dl_files::{Sink, SinkError};
use dl_gather::{Halt, fault_line};
use spec_program::status::{Refusal, Status};
use std::alloc::Global;

/// Says the text of a job whose files are written.
pub fn say<O: Sink>(out: &mut O, job: &Job) -> Status
    ensures { Said job.now.diverged job.now.text.items (O.taken out.old) (O.taken out.new) (O.count out.old) (O.count out.new) result }
{
    match put_all(out, &job.text) {
        Ok(()) if job.diverged => Status::Diverged,
        Ok(()) => Status::Done,
        Err(SinkError::Failed) => Status::Sink,
        Err(SinkError::OutOfMemory) => Status::Memory,
    }
}

/// Says why a command stops before any file is written.
pub fn stop<O: Sink>(out: &mut O, halt: Halt) -> Status
    ensures { Stopped halt (O.taken out.old) (O.taken out.new) (O.count out.old) (O.count out.new) result }
{
    match halt {
        Halt::Refused(why, line) => tell(out, status_of(why), &line),
        Halt::Fault(line) => tell(out, Status::Fault, &line),
        Halt::OutOfMemory => Status::Memory,
    }
}

/// Says that the write of that file failed.
pub fn fail<O: Sink>(alloc: Global, out: &mut O, name: &str) -> Status
    ensures { SaidLine Status.Fault (fault_text name.now) (O.taken out.old) (O.taken out.new) (O.count out.old) (O.count out.new) result }
{
    match fault_line(alloc, name) {
        Ok(line) => tell(out, Status::Fault, &line),
        Err(_) => Status::Memory,
    }
}

fn tell<O: Sink>(out: &mut O, due: Status, line: &[u8]) -> Status
    ensures { SaidLine due line.now (O.taken out.old) (O.taken out.new) (O.count out.old) (O.count out.new) result }
{
    match put_all(out, line) {
        Ok(()) | Err(SinkError::Failed) => due,
        Err(SinkError::OutOfMemory) => Status::Memory,
    }
}

fn status_of(why: Refusal) -> Status
    ensures { result ≡ status_due why }
{
    match why {
        Refusal::Usage => Status::Usage,
        Refusal::Plan => Status::Plan,
        Refusal::Image => Status::Image,
        Refusal::Grammar => Status::Grammar,
        Refusal::Source => Status::Source,
        Refusal::Absent => Status::Absent,
    }
}
