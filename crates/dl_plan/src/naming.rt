//! Whether the names of a plan's files are in conflict.
ghost use Rattle.std.specs.Prelude.{◌≡◌, ◌∷◌, ◌++◌, [], IfOk, OnOk, map};
ghost use Rattle.dl_plan.specs.Files.{InputValues, OutputValues, read_names, written_names};
ghost use Rattle.dl_plan.specs.Plans.{has_good_names};
ghost use Rattle.dl_plan.specs.Values.{plan_view};
ghost use Rattle.dl_plan.specs.Views.{texts, input_view, output_view};

use crate::inputs::{Input, inputs_of};
use crate::names::{all_differ, none_is_empty, none_is_one_of};
use crate::outputs::{Output, outputs_of};
use crate::plan::Plan;
use std::alloc::{AllocError, Global};

/// Whether no name is empty, no two written names are equal, and none of them is read.
pub(crate) fn has_good_names(alloc: Global, name: &str, plan: &Plan) -> Result<bool, AllocError>
    ensures { IfOk result (λ good. good ≡ has_good_names name.now (plan_view plan.now)) }
{
    let written = written_names(alloc, plan)?;
    let read = read_names(alloc, name, plan)?;
    Ok(
        none_is_empty(&written)
            && none_is_empty(&read)
            && all_differ(&written)
            && none_is_one_of(&read, &written),
    )
}

/// The names of the files that are read: the plan's own, and those that it has read.
fn read_names<'a>(alloc: Global, name: &'a str, plan: &'a Plan) -> Result<Vec<&'a str>, AllocError>
    ensures { IfOk result (λ names. texts names.items ≡ read_names name.now (plan_view plan.now)) }
{
    let inputs = inputs_of(alloc, plan)?;
    let mut names = Vec::new(alloc);
    add(&mut names, name)?;
    add_inputs(&mut names, &inputs)?;
    Ok(names)
}

fn add_inputs<'a>(names: &mut Vec<&'a str>, inputs: &[Input<'a>]) -> Result<(), AllocError>
    ensures { OnOk result (texts names.new.items
        ≡ texts names.old.items ++ map (λ (i : InputValues). i.name) (map input_view inputs.now)) }
{
    for input in inputs {
        add(names, input.name)?;
    }
    Ok(())
}

/// The names of the files that the plan has written.
fn written_names(alloc: Global, plan: &Plan) -> Result<Vec<&str>, AllocError>
    ensures { IfOk result (λ names. texts names.items ≡ written_names (plan_view plan.now)) }
{
    let outputs = outputs_of(alloc, plan)?;
    names_of(alloc, &outputs)
}

fn names_of<'a>(alloc: Global, outputs: &[Output<'a>]) -> Result<Vec<&'a str>, AllocError>
    ensures { IfOk result (λ names. texts names.items ≡ map (λ (o : OutputValues). o.name) (map output_view outputs.now)) }
{
    let mut names = Vec::new(alloc);
    for output in outputs {
        add(&mut names, output.name)?;
    }
    Ok(names)
}

fn add<'a>(names: &mut Vec<&'a str>, name: &'a str) -> Result<(), AllocError>
    ensures { OnOk result (texts names.new.items ≡ texts names.old.items ++ (name.now ∷ [])) }
{
    match names.push(name) {
        Ok(()) => Ok(()),
        Err(_) => Err(AllocError),
    }
}
