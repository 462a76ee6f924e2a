//! `run PLAN`: the task of a plan, run.
ghost use Rattle.std.specs.Prelude.{◌≡◌, Some, IfOk, IfErr, OnOk};
ghost use Rattle.dl_files.specs.Contents.{Contents};
ghost use Rattle.dl_plan.specs.Files.{input_names};
ghost use Rattle.dl_plan.specs.Values.{IsPlan, plan_view};
ghost use Rattle.dl_words.specs.Commands.{Run};
ghost use Rattle.spec_program.specs.commands.Run.{HasRun, outcome, reads};
ghost use Rattle.spec_program.specs.Tasks.{task_named, task_planned};
ghost use Rattle.dl_gather.specs.Halts.{Halts, IsNotUsage};
ghost use Rattle.dl_commands.specs.Jobs.{IsJobOf, IsTaskJob, finish_of};
ghost use Rattle.dl_commands.specs.Untold.{IsSomeRun, MayFinish};

use crate::job::Job;
use crate::running::run;
use dl_files::Files;
use dl_gather::{Halt, load_plan, load_task};
use dl_plan::Plan;
use std::alloc::Global;

/// The plan of that name, run.
pub fn run_plan<F: Files>(alloc: Global, files: &mut F, plan: &str) -> Result<Job, Halt>
    ensures job { IfOk result (λ job. (m : Contents) → (F.seen files.old).known ≡ Some m
        → IsJobOf (outcome m plan.now) job) }
    ensures limits { IfOk result (λ job. (m : Contents) → (F.seen files.old).known ≡ Some m
        → HasRun plan.now m) }
    ensures may { IfOk result (λ job.
        MayFinish (F.seen files.old).known (Run plan.now) (finish_of job)) }
    ensures halt { IfErr result (Halts (λ m. outcome m plan.now) (λ m. reads m plan.now)
        (F.seen files.old) (F.seen files.new)) }
    ensures usage { IfErr result IsNotUsage }
    ensures same { OnOk result (F.seen files.new ≡ F.seen files.old) }
{
    run_named(alloc, files, plan)
}

fn run_named<F: Files>(alloc: Global, files: &mut F, name: &str) -> Result<Job, Halt>
    ensures job { IfOk result (λ job. (m : Contents) → (F.seen files.old).known ≡ Some m
        → IsTaskJob (task_named m name.now) job) }
    ensures may { IfOk result (λ job.
        MayFinish (F.seen files.old).known (Run name.now) (finish_of job)) }
    ensures halt { IfErr result (Halts (λ m. task_named m name.now) (λ m. reads m name.now)
        (F.seen files.old) (F.seen files.new)) }
    ensures usage { IfErr result IsNotUsage }
    ensures same { OnOk result (F.seen files.new ≡ F.seen files.old) }
{
    let plan = load_plan(alloc, files, name)?;
    run_loaded(alloc, files, &plan)
}

// A plan that breaks no rule.
fn run_loaded<F: Files>(alloc: Global, files: &mut F, plan: &Plan) -> Result<Job, Halt>
    requires { IsPlan (plan_view plan.now) }
    ensures job { IfOk result (λ job. (m : Contents) → (F.seen files.old).known ≡ Some m
        → IsTaskJob (task_planned m (plan_view plan.now)) job) }
    ensures may { IfOk result (λ job. IsSomeRun (plan_view plan.now) (finish_of job)) }
    ensures halt { IfErr result (Halts (λ m. task_planned m (plan_view plan.now))
        (λ m. input_names (plan_view plan.now)) (F.seen files.old) (F.seen files.new)) }
    ensures usage { IfErr result IsNotUsage }
    ensures same { OnOk result (F.seen files.new ≡ F.seen files.old) }
{
    let task = load_task(alloc, files, plan)?;
    Ok(run(alloc, plan, task.setup, &task.schedule)?)
}
