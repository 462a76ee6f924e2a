//! The task of a plan that is read: the setup of its machine, and its schedule.
ghost use Rattle.std.specs.Prelude.{◌≡◌, All, Some, IfOk, IfErr, OnOk, length, map};
ghost use Rattle.dl_files.specs.Contents.{Contents};
ghost use Rattle.dl_machine.specs.Setups.{IsWithin, setup_in};
ghost use Rattle.dl_plan.specs.Files.{input_names};
ghost use Rattle.dl_plan.specs.Values.{IsPlan, plan_view};
ghost use Rattle.dl_run.specs.Schedules.{AreFew, events_in};
ghost use Rattle.dl_sphere.specs.Setups.{HasBegun, IsRecordableIf, setup_of as sphere_setup};
ghost use Rattle.spec_program.specs.Built.{setup_of};
ghost use Rattle.spec_program.specs.Files.{PlanRead};
ghost use Rattle.spec_program.specs.Tasks.{task_planned, task_read};
ghost use Rattle.dl_gather.specs.Halts.{Halts, IsNotUsage, Refuses};
ghost use Rattle.dl_gather.specs.Inputs.{AreOf, inputs_view};
ghost use Rattle.dl_gather.specs.Tasks.{IsTaskOf};

use crate::events::read_events;
use crate::gathering::read_inputs;
use crate::halt::Halt;
use crate::images::load_images;
use crate::inputs::Inputs;
use crate::setups::setups_of;
use dl_entry::{Bytes, Sequence};
use dl_files::Files;
use dl_machine::Setup;
use dl_plan::Plan;
use dl_run::Schedule;
use dl_sphere::SphereSetup;
use std::alloc::Global;

/// What a plan and its files ask for.
#[derive(Drop)]
pub struct Task {
    pub setup: Setup,
    pub schedule: Schedule,
}

/// The task of the plan. Its files are read first; then each image is looked at, then each log, then the script.
pub fn load_task<F: Files>(alloc: Global, files: &mut F, plan: &Plan) -> Result<Task, Halt>
    requires { IsPlan (plan_view plan.now) }
    ensures task { IfOk result (λ task. (m : Contents) → (F.seen files.old).known ≡ Some m
        → IsTaskOf (plan_view plan.now) (task_planned m (plan_view plan.now)) task) }
    ensures read { IfOk result (λ task. (read : PlanRead)
        × IsTaskOf (plan_view plan.now) (task_read (plan_view plan.now) read) task) }
    ensures within { IfOk result (λ task. IsWithin task.setup) }
    ensures count { IfOk result (λ task. length task.setup.spheres ≡ length (plan_view plan.now).spheres) }
    ensures few { IfOk result (λ task. AreFew (events_in task.schedule)) }
    ensures halt { IfErr result (Halts (λ m. task_planned m (plan_view plan.now))
        (λ m. input_names (plan_view plan.now)) (F.seen files.old) (F.seen files.new)) }
    ensures usage { IfErr result IsNotUsage }
    ensures same { OnOk result (F.seen files.new ≡ F.seen files.old) }
{
    let inputs = read_inputs(alloc, files, plan)?;
    task_of(alloc, plan, inputs)
}

// Of the files that are read.
fn task_of(alloc: Global, plan: &Plan, inputs: Inputs) -> Result<Task, Halt>
    requires plan { IsPlan (plan_view plan.now) }
    requires inputs { AreOf (plan_view plan.now) (inputs_view inputs) }
    ensures task { IfOk result (IsTaskOf (plan_view plan.now) (task_read (plan_view plan.now) (inputs_view inputs))) }
    ensures within { IfOk result (λ task. IsWithin task.setup) }
    ensures count { IfOk result (λ task. length task.setup.spheres ≡ length (plan_view plan.now).spheres) }
    ensures few { IfOk result (λ task. AreFew (events_in task.schedule)) }
    ensures halt { IfErr result (Refuses (task_read (plan_view plan.now) (inputs_view inputs))) }
{
    let images = load_images(alloc, &inputs.spheres)?;
    let spheres = setups_of(alloc, images, inputs.spheres)?;
    let schedule = read_events(alloc, plan.sizes.seed, inputs.schedule)?;
    let setup = setup_of(plan, inputs.input, spheres);
    Ok(Task { setup, schedule })
}

// The setup of the plan's machine.
fn setup_of(plan: &Plan, input: Vec<u8>, spheres: Vec<SphereSetup>) -> Setup
    requires plan { IsPlan (plan_view plan.now) }
    requires spheres { length spheres.items ≡ length (plan_view plan.now).spheres }
    requires recorded { All (λ image. IsRecordableIf plan.now.sizes.chunk image.role) (map sphere_setup spheres.items) }
    requires begun { All HasBegun spheres.items }
    ensures value { setup_in result ≡ setup_of (plan_view plan.now) input.items (map sphere_setup spheres.items) }
    ensures within { IsWithin result }
    ensures count { length result.spheres ≡ length (plan_view plan.now).spheres }
{
    Setup {
        cores: plan.sizes.cores,
        window: plan.sizes.window,
        s: plan.sizes.chunk,
        capacity: plan.sizes.buffer,
        bits: plan.sizes.signature,
        depth: plan.sizes.depth,
        seed: plan.sizes.seed,
        input: Bytes::from_vec(input),
        spheres: Sequence::from_vec(spheres),
    }
}
