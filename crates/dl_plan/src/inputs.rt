//! The files that a plan has read.
ghost use Rattle.std.specs.Prelude.{◌≡◌, ◌∷◌, ◌++◌, [], IfOk, OnOk, map, option_map, string_bytes};
ghost use Rattle.dl_plan.specs.Files.{InputValues, from, script_read, read_by, read_from, inputs_of};
ghost use Rattle.dl_plan.specs.Values.{plan_view, schedule_view, sphere_view, role_view};
ghost use Rattle.dl_plan.specs.Views.{input_view};

use crate::plan::{Plan, Role, Schedule, Sphere};
use std::alloc::{AllocError, Global};

/// What a file is read for. Spheres are numbered from 0.
#[derive(Clone, Copy)]
pub enum Source {
    /// The script, which has the events.
    Script,
    /// The input of the devices.
    Input,
    /// The image of the sphere of that number.
    Image(usize),
    /// The log that the sphere of that number replays.
    Log(usize),
    /// The strata that the sphere of that number replays.
    Strata(usize),
}

/// A file that is read.
#[derive(Clone, Copy)]
pub struct Input<'a> {
    pub name: &'a str,
    pub source: Source,
}

/// The files that the plan has read, in their order: the script, the input, and of each sphere its image and its log or
/// its strata.
pub fn inputs_of(alloc: Global, plan: &Plan) -> Result<Vec<Input<'_>>, AllocError>
    ensures { IfOk result (λ inputs. map input_view inputs.items ≡ inputs_of (plan_view plan.now)) }
{
    let mut inputs = Vec::new(alloc);
    add_script(&mut inputs, &plan.schedule)?;
    add_optional(&mut inputs, Source::Input, &plan.input)?;
    add_spheres(&mut inputs, &plan.spheres)?;
    Ok(inputs)
}

fn add_script<'a>(inputs: &mut Vec<Input<'a>>, schedule: &'a Schedule) -> Result<(), AllocError>
    ensures { OnOk result (map input_view inputs.new.items
        ≡ map input_view inputs.old.items ++ script_read (schedule_view schedule.now)) }
{
    match schedule {
        Schedule::Script(name) => add(inputs, Source::Script, name.as_str()),
        Schedule::Seeded { .. } => Ok(()),
    }
}

fn add_spheres<'a>(inputs: &mut Vec<Input<'a>>, spheres: &'a [Sphere]) -> Result<(), AllocError>
    ensures { OnOk result (map input_view inputs.new.items
        ≡ map input_view inputs.old.items ++ read_from 0 (map sphere_view spheres.now)) }
{
    for (i, sphere) in spheres.iter().enumerate() {
        add_sphere(inputs, i, sphere)?;
    }
    Ok(())
}

/// Adds the files that the sphere of that number has read.
fn add_sphere<'a>(
    inputs: &mut Vec<Input<'a>>,
    number: usize,
    sphere: &'a Sphere,
) -> Result<(), AllocError>
    ensures { OnOk result (map input_view inputs.new.items
        ≡ map input_view inputs.old.items ++ read_by number (sphere_view sphere.now)) }
{
    add(inputs, Source::Image(number), sphere.image.as_str())?;
    match &sphere.role {
        Role::Plain => Ok(()),
        Role::Record { .. } => Ok(()),
        Role::Replay { log, .. } => add(inputs, Source::Log(number), log.as_str()),
        Role::InStrata { strata } => add(inputs, Source::Strata(number), strata.as_str()),
    }
}

fn add_optional<'a>(
    inputs: &mut Vec<Input<'a>>,
    source: Source,
    name: &'a Option<String>,
) -> Result<(), AllocError>
    ensures { OnOk result (map input_view inputs.new.items
        ≡ map input_view inputs.old.items ++ from source (option_map string_bytes name.now)) }
{
    match name {
        Some(name) => add(inputs, source, name.as_str()),
        None => Ok(()),
    }
}

fn add<'a>(inputs: &mut Vec<Input<'a>>, source: Source, name: &'a str) -> Result<(), AllocError>
    ensures { OnOk result (map input_view inputs.new.items
        ≡ map input_view inputs.old.items ++ (record { name = name.now; source = source } ∷ [])) }
{
    match inputs.push(Input { name, source }) {
        Ok(()) => Ok(()),
        Err(_) => Err(AllocError),
    }
}
