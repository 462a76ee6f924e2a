//! From what a plan's keys hold to what it asks for.
ghost use Rattle.std.specs.Prelude.{◌≡◌, ◌≤◌, ◌^◌, Ok, Some, IfOk, IfErr, IfSome, map, option_map, option_copied, string_bytes};
ghost use Rattle.dl_plan.specs.Optional.{each_of};
ghost use Rattle.dl_plan.specs.Plans.{schedule_of, sphere_asked, values_in};
ghost use Rattle.dl_plan.specs.Refusal.{Says, IsBroken};
ghost use Rattle.dl_plan.specs.Values.{plan_view, schedule_view, sphere_view, role_view, AreNumbers, IsSchedule, IsMemory, AreMemories, IsRole, AreRoles};
ghost use Rattle.dl_plan.specs.Views.{entry_view, entries_view};

use crate::entries::Entries;
use crate::error::PlanError;
use crate::plan::{Plan, Schedule, Sphere};
use crate::roles::role_of;
use crate::sizes::{events_in, memory_of, sizes_in};
use crate::sphere::SphereEntries;
use std::alloc::{AllocError, Global};

/// The plan of these entries. Refused by rule 4 where a number is outside its limits, else by rule 5 where there is not
/// one schedule, else by rule 6 where a role has not what it needs.
pub(crate) fn to_plan(alloc: Global, entries: &Entries<'_>) -> Result<Plan, PlanError>
    ensures ok { IfOk result (λ p. values_in (entries_view entries.now) ≡ Ok (plan_view p)) }
    ensures limits { IfOk result (λ p. AreNumbers (plan_view p)) }
    ensures spheres { IfOk result (λ p. each_of sphere_asked (entries_view entries.now).spheres ≡ Some (plan_view p).spheres) }
    ensures refused { IfErr result (Says (values_in (entries_view entries.now))) }
{
    let sizes = match sizes_in(entries) {
        Some(sizes) => sizes,
        None => return Err(PlanError::Refused(4)),
    };
    let events = match events_in(&entries.top) {
        Some(events) => events,
        None => return Err(PlanError::Refused(4)),
    };
    let schedule = schedule_of(alloc, events, entries.top.script)?;
    let spheres = spheres_of(alloc, &entries.spheres)?;
    Ok(Plan {
        sizes,
        schedule,
        input: owned(alloc, entries.top.input)?,
        console: owned(alloc, entries.top.console)?,
        report: owned(alloc, entries.top.report)?,
        spheres,
    })
}

/// The schedule. Refused by rule 5 where there is not one.
fn schedule_of(
    alloc: Global,
    events: Option<u32>,
    script: Option<&str>,
) -> Result<Schedule, PlanError>
    requires { IfSome events (λ n. n ≤ 2 ^ 24) }
    ensures ok { IfOk result (λ s. schedule_of events (option_copied script.entry) ≡ Some (schedule_view s)) }
    ensures limits { IfOk result (λ s. IsSchedule (schedule_view s)) }
    ensures refused { IfErr result (IsBroken 5 (schedule_of events (option_copied script.entry))) }
{
    match (events, script) {
        (Some(events), None) => Ok(Schedule::Seeded { events }),
        (None, Some(name)) => Ok(Schedule::Script(String::from_str(alloc, name)?)),
        _ => Err(PlanError::Refused(5)),
    }
}

/// What each sphere is to do. Refused by rule 6 where a role has not what it needs.
fn spheres_of(alloc: Global, entries: &[SphereEntries<'_>]) -> Result<Vec<Sphere>, PlanError>
    ensures ok { IfOk result (λ ss. each_of sphere_asked (map entry_view entries.now) ≡ Some (map sphere_view ss.items)) }
    ensures memories { IfOk result (λ ss. AreMemories (map sphere_view ss.items)) }
    ensures roles { IfOk result (λ ss. AreRoles (map sphere_view ss.items)) }
    ensures refused { IfErr result (IsBroken 6 (each_of sphere_asked (map entry_view entries.now))) }
{
    let mut spheres = Vec::new(alloc);
    for entry in entries {
        let sphere = match sphere_of(alloc, entry) {
            Ok(sphere) => sphere,
            Err(error) => return Err(error),
        };
        match spheres.push(sphere) {
            Ok(()) => {}
            Err(_) => return Err(PlanError::OutOfMemory),
        }
    }
    Ok(spheres)
}

/// What one sphere is to do, whose numbers are in their limits.
fn sphere_of(alloc: Global, entry: &SphereEntries<'_>) -> Result<Sphere, PlanError>
    ensures ok { IfOk result (λ s. sphere_asked (entry_view entry.now) ≡ Some (sphere_view s)) }
    ensures memory { IfOk result (λ s. IsMemory s.memory) }
    ensures role { IfOk result (λ s. IsRole (role_view s.role)) }
    ensures refused { IfErr result (IsBroken 6 (sphere_asked (entry_view entry.now))) }
{
    let role = role_of(alloc, entry)?;
    let memory = match memory_of(entry.memory) {
        Some(memory) => memory,
        None => return Err(PlanError::Refused(6)),
    };
    Ok(Sphere {
        image: String::from_str(alloc, entry.image)?,
        memory,
        role,
        account: owned(alloc, entry.account)?,
    })
}

/// The text, if one is there, copied out of the document.
fn owned(alloc: Global, text: Option<&str>) -> Result<Option<String>, AllocError>
    ensures { IfOk result (λ t. option_map string_bytes t ≡ option_copied text.entry) }
{
    match text {
        Some(text) => Ok(Some(String::from_str(alloc, text)?)),
        None => Ok(None),
    }
}
