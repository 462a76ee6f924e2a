//! Reading what a plan names, part after part in the order of the work, and nothing after a file that is absent or fails.
ghost use Rattle.std.specs.Prelude.{◌≡◌, ℕ, Some, Ok, IfOk, IfErr, OnOk, flat_map, length, map, option_map, option_to_list, string_bytes};
ghost use Rattle.dl_files.specs.Contents.{Contents};
ghost use Rattle.dl_plan.specs.Files.{input_names};
ghost use Rattle.dl_plan.specs.Values.{IsPlan, IsSchedule, AreMemories, plan_view, schedule_view, role_view, sphere_view};
ghost use Rattle.spec_program.specs.Files.{plan_read, schedule_read, input_read, role_read, sphere_read, spheres_read};
ghost use Rattle.dl_gather.specs.Halts.{Unread};
ghost use Rattle.dl_gather.specs.Inputs.{AreOf, IsScheduleRead, HaveMemories, inputs_view, schedule_view as schedule_inputs};
ghost use Rattle.dl_gather.specs.Inputs.{role_view as role_inputs, sphere_view as sphere_inputs};
ghost use Rattle.dl_gather.specs.Inputs.{IsPlannedRole, IsReadRole, ArePlannedRoles, AreReadRoles};
ghost use Rattle.dl_gather.specs.Reads.{read_for_schedule, read_for_role, read_for_sphere};

use crate::halt::Halt;
use crate::inputs::{Inputs, RoleInputs, ScheduleInputs, SphereInputs};
use crate::reading::{read_file, read_log, read_script};
use dl_files::Files;
use dl_plan::{Plan, Role, Schedule, Sphere};
use std::alloc::Global;

/// The files that the plan has read: the script, the input, and of each sphere its image and its log or strata.
pub fn read_inputs<F: Files>(alloc: Global, files: &mut F, plan: &Plan) -> Result<Inputs, Halt>
    requires { IsPlan (plan_view plan.now) }
    ensures read { IfOk result (λ r. (m : Contents) → (F.seen files.old).known ≡ Some m
        → plan_read m (plan_view plan.now) ≡ Ok (inputs_view r)) }
    ensures limits { IfOk result (λ r. AreOf (plan_view plan.now) (inputs_view r)) }
    ensures halt { IfErr result (Unread (input_names (plan_view plan.now))
        (λ m. plan_read m (plan_view plan.now)) (F.seen files.old) (F.seen files.new)) }
    ensures same { OnOk result (F.seen files.new ≡ F.seen files.old) }
{
    let schedule = read_schedule(alloc, files, &plan.schedule)?;
    let input = read_input(alloc, files, &plan.input)?;
    let spheres = read_spheres(alloc, files, &plan.spheres)?;
    Ok(Inputs {
        schedule,
        input,
        spheres,
    })
}

fn read_schedule<F: Files>(
    alloc: Global,
    files: &mut F,
    schedule: &Schedule,
) -> Result<ScheduleInputs, Halt>
    requires { IsSchedule (schedule_view schedule.now) }
    ensures read { IfOk result (λ s. (m : Contents) → (F.seen files.old).known ≡ Some m
        → schedule_read m (schedule_view schedule.now) ≡ Ok (schedule_inputs s)) }
    ensures few { IfOk result (λ s. IsScheduleRead (schedule_inputs s)) }
    ensures halt { IfErr result (Unread (read_for_schedule (schedule_view schedule.now))
        (λ m. schedule_read m (schedule_view schedule.now)) (F.seen files.old) (F.seen files.new)) }
    ensures same { OnOk result (F.seen files.new ≡ F.seen files.old) }
{
    match schedule {
        Schedule::Script(name) => {
            let script = read_script(alloc, files, name.as_str())?;
            Ok(ScheduleInputs::Script(script))
        }
        Schedule::Seeded { events } => Ok(ScheduleInputs::Drawn(*events)),
    }
}

fn read_input<F: Files>(
    alloc: Global,
    files: &mut F,
    name: &Option<String>,
) -> Result<Vec<u8>, Halt>
    ensures read { IfOk result (λ bytes. (m : Contents) → (F.seen files.old).known ≡ Some m
        → input_read m (option_map string_bytes name.now) ≡ Ok bytes.items) }
    ensures halt { IfErr result (Unread (option_to_list (option_map string_bytes name.now))
        (λ m. input_read m (option_map string_bytes name.now)) (F.seen files.old) (F.seen files.new)) }
    ensures same { OnOk result (F.seen files.new ≡ F.seen files.old) }
{
    match name {
        Some(name) => read_file(alloc, files, name.as_str()),
        None => Ok(Vec::new(alloc)),
    }
}

fn read_spheres<F: Files>(
    alloc: Global,
    files: &mut F,
    spheres: &[Sphere],
) -> Result<Vec<SphereInputs>, Halt>
    requires { AreMemories (map sphere_view spheres.now) }
    ensures read { IfOk result (λ ss. (m : Contents) → (F.seen files.old).known ≡ Some m
        → spheres_read m (map sphere_view spheres.now) ≡ Ok (map sphere_inputs ss.items)) }
    ensures count { IfOk result (λ ss. length ss.items ≡ length spheres.now) }
    ensures memories { IfOk result (λ ss. HaveMemories (map sphere_inputs ss.items)) }
    ensures roles { IfOk result (λ ss. (s : ℕ) → ArePlannedRoles s (map sphere_view spheres.now)
        → AreReadRoles s (map sphere_inputs ss.items)) }
    ensures halt { IfErr result (Unread (flat_map read_for_sphere (map sphere_view spheres.now))
        (λ m. spheres_read m (map sphere_view spheres.now)) (F.seen files.old) (F.seen files.new)) }
    ensures same { OnOk result (F.seen files.new ≡ F.seen files.old) }
{
    let mut read = Vec::new(alloc);
    for sphere in spheres {
        let sphere = read_sphere(alloc, files, sphere)?;
        match read.push(sphere) {
            Ok(()) => {}
            Err(_) => return Err(Halt::OutOfMemory),
        }
    }
    Ok(read)
}

fn read_sphere<F: Files>(
    alloc: Global,
    files: &mut F,
    sphere: &Sphere,
) -> Result<SphereInputs, Halt>
    ensures read { IfOk result (λ s. (m : Contents) → (F.seen files.old).known ≡ Some m
        → sphere_read m (sphere_view sphere.now) ≡ Ok (sphere_inputs s)) }
    ensures memory { IfOk result (λ s. s.memory ≡ sphere.now.memory) }
    ensures roles { IfOk result (λ r. (s : ℕ) → IsPlannedRole s (role_view sphere.now.role)
        → IsReadRole s (role_inputs r.role)) }
    ensures halt { IfErr result (Unread (read_for_sphere (sphere_view sphere.now))
        (λ m. sphere_read m (sphere_view sphere.now)) (F.seen files.old) (F.seen files.new)) }
    ensures same { OnOk result (F.seen files.new ≡ F.seen files.old) }
{
    let image = read_file(alloc, files, sphere.image.as_str())?;
    let role = read_role(alloc, files, &sphere.role)?;
    Ok(SphereInputs {
        image,
        memory: sphere.memory,
        role,
    })
}

fn read_role<F: Files>(alloc: Global, files: &mut F, role: &Role) -> Result<RoleInputs, Halt>
    ensures read { IfOk result (λ r. (m : Contents) → (F.seen files.old).known ≡ Some m
        → role_read m (role_view role.now) ≡ Ok (role_inputs r)) }
    ensures roles { IfOk result (λ r. (s : ℕ) → IsPlannedRole s (role_view role.now)
        → IsReadRole s (role_inputs r)) }
    ensures halt { IfErr result (Unread (read_for_role (role_view role.now))
        (λ m. role_read m (role_view role.now)) (F.seen files.old) (F.seen files.new)) }
    ensures same { OnOk result (F.seen files.new ≡ F.seen files.old) }
{
    match role {
        Role::Plain => Ok(RoleInputs::Plain),
        Role::Record {
            mode,
            version,
            epochs,
            ..
        } => Ok(RoleInputs::Record {
            version: *version,
            mode: *mode,
            epochs: *epochs,
        }),
        Role::Replay { log, from, to } => {
            let log = read_log(alloc, files, log.as_str())?;
            Ok(RoleInputs::Replay {
                log,
                from: *from,
                to: *to,
            })
        }
        Role::InStrata { strata } => {
            let strata = read_file(alloc, files, strata.as_str())?;
            Ok(RoleInputs::InStrata { strata })
        }
    }
}
