//! The machine takes a schedule, from its first event to its last.
ghost use Rattle.std.specs.Prelude.{OnOk};
ghost use Rattle.dl_event.specs.Seeded.{schedule as drawn_from, seeded};
ghost use Rattle.dl_run.specs.Taken.{HasTaken, IsNew};
ghost use Rattle.dl_run.specs.Schedules.{AreFew, events_in};

use crate::schedule::Schedule;
use dl_entry::OutOfMemory;
use dl_event::{Events, Seeded};
use dl_machine::Machine;
use dl_sig::Sig;

// A new machine takes the schedule.
pub(crate) fn drive<G: Sig>(
    machine: &mut Machine<G>,
    schedule: &Schedule,
) -> Result<(), OutOfMemory>
    requires new { IsNew machine.old }
    requires few { AreFew (events_in schedule.now) }
    ensures { OnOk result (HasTaken (events_in schedule.now) machine.old machine.new) }
{
    match schedule {
        Schedule::Script(events) => take_listed(machine, events),
        Schedule::Seeded { seed, events } => take_drawn(machine, *seed, *events),
    }
}

fn take_listed<G: Sig>(machine: &mut Machine<G>, events: &Events) -> Result<(), OutOfMemory>
    requires new { IsNew machine.old }
    requires few { AreFew events.now }
    ensures { OnOk result (HasTaken events.now machine.old machine.new) }
{
    for repeated in events.repeated() {
        for _ in 0..repeated.times {
            machine.apply(repeated.event)?;
        }
    }
    Ok(())
}

// The events are never held all at once.
fn take_drawn<G: Sig>(machine: &mut Machine<G>, seed: u64, events: u32) -> Result<(), OutOfMemory>
    requires new { IsNew machine.old }
    requires few { AreFew (drawn_from events (seeded seed)) }
    ensures { OnOk result (HasTaken (drawn_from events (seeded seed)) machine.old machine.new) }
{
    let mut drawn = Seeded::new(seed);
    for _ in 0..events {
        machine.apply(drawn.next())?;
    }
    Ok(())
}
