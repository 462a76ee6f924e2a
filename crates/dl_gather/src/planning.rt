//! The plan of a command.
ghost use Rattle.std.specs.Prelude.{◌≡◌, Some, Ok, IfOk, IfErr, OnOk};
ghost use Rattle.dl_files.specs.Contents.{Contents};
ghost use Rattle.dl_plan.specs.Values.{IsPlan, plan_view};
ghost use Rattle.spec_program.specs.commands.Run.{reads};
ghost use Rattle.spec_program.specs.Tasks.{plan_at};
ghost use Rattle.dl_gather.specs.Halts.{Halts, IsNotUsage};
ghost use Rattle.dl_gather.specs.Names.{MayHold};

use crate::halt::Halt;
use crate::lines::plan_line;
use crate::reading::read_file;
use dl_files::Files;
use dl_plan::{Plan, PlanError, read_plan};
use spec_program::status::Refusal;
use std::alloc::Global;

/// The plan in the file `name`.
pub fn load_plan<F: Files>(alloc: Global, files: &mut F, name: &str) -> Result<Plan, Halt>
    ensures plan { IfOk result (λ p. (m : Contents) → (F.seen files.old).known ≡ Some m
        → plan_at m name.now ≡ Ok (plan_view p)) }
    ensures read { IfOk result (λ p. MayHold (F.seen files.old).known (λ m. plan_at m name.now ≡ Ok (plan_view p))) }
    ensures limits { IfOk result (λ p. IsPlan (plan_view p)) }
    ensures halt { IfErr result (Halts (λ m. plan_at m name.now)
        (λ m. reads m name.now) (F.seen files.old) (F.seen files.new)) }
    ensures usage { IfErr result IsNotUsage }
    ensures same { OnOk result (F.seen files.new ≡ F.seen files.old) }
{
    let bytes = read_file(alloc, files, name)?;
    match read_plan(alloc, name, &bytes) {
        Ok(plan) => Ok(plan),
        Err(PlanError::Refused(rule)) => Err(Halt::Refused(Refusal::Plan, plan_line(alloc, rule)?)),
        Err(PlanError::OutOfMemory) => Err(Halt::OutOfMemory),
    }
}
