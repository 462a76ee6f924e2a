//! What a plan's keys hold, each value of its type.
ghost use Rattle.std.specs.Prelude.{◌≡◌, Ok, Some, IfOk, IfErr, map};
ghost use Rattle.dl_plan.specs.Entries.{sphere_in, spheres_at};
ghost use Rattle.dl_plan.specs.Optional.{each_of};
ghost use Rattle.dl_plan.specs.Plans.{entries_in};
ghost use Rattle.dl_plan.specs.Refusal.{Says, IsBroken};
ghost use Rattle.dl_plan.specs.Views.{entry_view, entries_view};
ghost use Rattle.std.specs.Prelude.{codes};
ghost use Rattle.toml.specs.Data.{get_member};
ghost use Rattle.toml.specs.View.{view, table_view};

use crate::document::value;
use crate::error::PlanError;
use crate::keys::has_known_keys;
use crate::sphere::{SphereEntries, read_sphere};
use crate::top::{TopEntries, read_top};
use std::alloc::Global;
use toml::{Table, Value};

/// The values at a plan's keys, not yet judged.
#[derive(Drop)]
pub(crate) struct Entries<'a> {
    pub top: TopEntries<'a>,
    pub spheres: Vec<SphereEntries<'a>>,
}

/// Reads a plan's keys. Refused by rule 2 where it has others, and else by rule 3 where a required one is not there, or
/// one holds another kind of value.
pub(crate) fn read_entries(alloc: Global, table: &Table) -> Result<Entries<'_>, PlanError>
    ensures ok { IfOk result (λ e. entries_in (table_view table.now) ≡ Ok (entries_view e)) }
    ensures refused { IfErr result (Says (entries_in (table_view table.now))) }
{
    if !has_known_keys(table) {
        return Err(PlanError::Refused(2));
    }
    let top = match read_top(table) {
        Some(top) => top,
        None => return Err(PlanError::Refused(3)),
    };
    match spheres_in(alloc, table) {
        Ok(spheres) => Ok(Entries { top, spheres }),
        Err(error) => Err(error),
    }
}

/// The spheres of a plan. Refused by rule 3 where something else is at their key.
#[tactic(auto, using(crate::proofs::Documents::list_of_items))]
fn spheres_in(alloc: Global, table: &Table) -> Result<Vec<SphereEntries<'_>>, PlanError>
    ensures ok { IfOk result (λ ss. spheres_at (get_member (codes "sphere") (table_view table.now)) ≡ Some (map entry_view ss.items)) }
    ensures refused { IfErr result (IsBroken 3 (spheres_at (get_member (codes "sphere") (table_view table.now)))) }
{
    match value(table, "sphere") {
        Some(value) => match value.as_array() {
            Some(items) => read_spheres(alloc, items),
            None => Err(PlanError::Refused(3)),
        },
        None => Ok(Vec::new(alloc)),
    }
}

/// Reads each item as a sphere.
fn read_spheres(alloc: Global, items: &[Value]) -> Result<Vec<SphereEntries<'_>>, PlanError>
    ensures ok { IfOk result (λ ss. each_of sphere_in (map view items.now) ≡ Some (map entry_view ss.items)) }
    ensures refused { IfErr result (IsBroken 3 (each_of sphere_in (map view items.now))) }
{
    let mut spheres = Vec::new(alloc);
    for item in items {
        let sphere = match read_sphere(item) {
            Some(sphere) => sphere,
            None => return Err(PlanError::Refused(3)),
        };
        match spheres.push(sphere) {
            Ok(()) => {}
            Err(_) => return Err(PlanError::OutOfMemory),
        }
    }
    Ok(spheres)
}
