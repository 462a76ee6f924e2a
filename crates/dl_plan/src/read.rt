//! From the bytes of a plan to what it asks for.
ghost use Rattle.std.specs.Prelude.{◌≡◌, Ok, IfOk, IfErr};
ghost use Rattle.dl_plan.specs.Plans.{plan_of, plan_in};
ghost use Rattle.dl_plan.specs.Refusal.{Says};
ghost use Rattle.dl_plan.specs.Values.{plan_view, IsPlan};
ghost use Rattle.dl_plan.specs.Views.{entries_view};

use crate::chunks::has_good_chunk;
use crate::document::read_document;
use crate::entries::{Entries, read_entries};
use crate::epochs::have_good_epochs;
use crate::error::PlanError;
use crate::intervals::have_good_intervals;
use crate::naming::has_good_names;
use crate::plan::Plan;
use crate::values::to_plan;
use std::alloc::Global;

/// Reads the plan in `bytes`, the bytes of the file `name`. Refused is the first rule that the whole plan breaks:
/// 1 it is no TOML, 2 it has another key, 3 a key is missing or its value is of another kind, 4 a number is outside
/// its limits, 5 it has not one schedule, 6 a role has not what it needs, 7 its names conflict, 8 its chunk is too long for
/// a log that is recorded, 9 a sphere that doesn't replay a log begins or ends within one, or one that does ends before it begins,
/// 10 a sphere has one number of epochs without the other, or has both and isn't recorded into a log of version 2.
#[tactic(auto, unfolding(crate::specs::Plans::plan_of))]
pub fn read_plan(alloc: Global, name: &str, bytes: &[u8]) -> Result<Plan, PlanError>
    ensures ok { IfOk result (λ p. plan_of name.now bytes.now ≡ Ok (plan_view p)) }
    ensures limits { IfOk result (λ p. IsPlan (plan_view p)) }
    ensures refused { IfErr result (Says (plan_of name.now bytes.now)) }
{
    let table = read_document(alloc, bytes)?;
    let entries = read_entries(alloc, &table)?;
    plan_in(alloc, name, &entries)
}

/// The plan of these entries: what the keys hold, judged by rules 4 to 10.
fn plan_in(alloc: Global, name: &str, entries: &Entries<'_>) -> Result<Plan, PlanError>
    ensures ok { IfOk result (λ p. plan_in name.now (entries_view entries.now) ≡ Ok (plan_view p)) }
    ensures limits { IfOk result (λ p. IsPlan (plan_view p)) }
    ensures refused { IfErr result (Says (plan_in name.now (entries_view entries.now))) }
{
    let plan = to_plan(alloc, entries)?;
    if !has_good_names(alloc, name, &plan)? {
        return Err(PlanError::Refused(7));
    }
    if !has_good_chunk(&plan) {
        return Err(PlanError::Refused(8));
    }
    if !have_good_intervals(&entries.spheres) {
        return Err(PlanError::Refused(9));
    }
    if !have_good_epochs(&entries.spheres) {
        return Err(PlanError::Refused(10));
    }
    Ok(plan)
}
