//! The files that a plan has written.
ghost use Rattle.std.specs.Prelude.{◌≡◌, ◌∷◌, ◌++◌, [], IfOk, OnOk, map, option_map, string_bytes};
ghost use Rattle.dl_plan.specs.Files.{OutputValues, into, log_written, written_by, written_from, outputs_of};
ghost use Rattle.dl_plan.specs.Values.{plan_view, sphere_view, role_view};
ghost use Rattle.dl_plan.specs.Views.{output_view};

use crate::plan::{Plan, Role, Sphere};
use std::alloc::{AllocError, Global};

/// What a run makes for a file. Spheres are numbered from 0.
#[derive(Clone, Copy)]
pub enum Product {
    /// The log of the sphere of that number.
    Log(usize),
    /// The account of the sphere of that number.
    Account(usize),
    /// The bytes of the console.
    Console,
    /// The report.
    Report,
}

/// A file that is written.
#[derive(Clone, Copy)]
pub struct Output<'a> {
    pub name: &'a str,
    pub product: Product,
}

/// The files that the plan has written, in their order: of each sphere its log and its account, then the console, then
/// the report.
pub fn outputs_of(alloc: Global, plan: &Plan) -> Result<Vec<Output<'_>>, AllocError>
    ensures { IfOk result (λ outputs. map output_view outputs.items ≡ outputs_of (plan_view plan.now)) }
{
    let mut outputs = Vec::new(alloc);
    add_spheres(&mut outputs, &plan.spheres)?;
    add_optional(&mut outputs, Product::Console, &plan.console)?;
    add_optional(&mut outputs, Product::Report, &plan.report)?;
    Ok(outputs)
}

fn add_spheres<'a>(outputs: &mut Vec<Output<'a>>, spheres: &'a [Sphere]) -> Result<(), AllocError>
    ensures { OnOk result (map output_view outputs.new.items
        ≡ map output_view outputs.old.items ++ written_from 0 (map sphere_view spheres.now)) }
{
    for (i, sphere) in spheres.iter().enumerate() {
        add_sphere(outputs, i, sphere)?;
    }
    Ok(())
}

/// Adds the files that the sphere of that number writes.
fn add_sphere<'a>(
    outputs: &mut Vec<Output<'a>>,
    number: usize,
    sphere: &'a Sphere,
) -> Result<(), AllocError>
    ensures { OnOk result (map output_view outputs.new.items
        ≡ map output_view outputs.old.items ++ written_by number (sphere_view sphere.now)) }
{
    match &sphere.role {
        Role::Record { log, .. } => add(outputs, Product::Log(number), log.as_str())?,
        Role::Plain | Role::Replay { .. } | Role::InStrata { .. } => (),
    }
    add_optional(outputs, Product::Account(number), &sphere.account)
}

fn add_optional<'a>(
    outputs: &mut Vec<Output<'a>>,
    product: Product,
    name: &'a Option<String>,
) -> Result<(), AllocError>
    ensures { OnOk result (map output_view outputs.new.items
        ≡ map output_view outputs.old.items ++ into product (option_map string_bytes name.now)) }
{
    match name {
        Some(name) => add(outputs, product, name.as_str()),
        None => Ok(()),
    }
}

fn add<'a>(outputs: &mut Vec<Output<'a>>, product: Product, name: &'a str) -> Result<(), AllocError>
    ensures { OnOk result (map output_view outputs.new.items
        ≡ map output_view outputs.old.items ++ (record { name = name.now; product = product } ∷ [])) }
{
    match outputs.push(Output { name, product }) {
        Ok(()) => Ok(()),
        Err(_) => Err(AllocError),
    }
}
