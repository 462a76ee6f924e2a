//! A run that is over.
ghost use Rattle.std.specs.Prelude.{◌≡◌, IfOk};
ghost use Rattle.dl_machine.specs.Setups.{IsWithin, setup_in};
ghost use Rattle.dl_run.specs.Ran.{IsOver};
ghost use Rattle.dl_run.specs.Schedules.{AreFew, events_in};

use crate::driving::drive;
use crate::schedule::Schedule;
use dl_entry::OutOfMemory;
use dl_finish::finish;
use dl_machine::{Machine, Setup};
use dl_sig::Banked;
use std::alloc::Global;
use std::marker::Model;

/// A machine whose run is over, and its setup.
#[derive(Drop)]
pub struct Run {
    pub(crate) setup: Setup,
    pub(crate) machine: Machine<Banked>,
}

impl Model for Run {
    ghost use Rattle.std.specs.Coded.{codes};
    ghost use Rattle.std.specs.Prelude.{List};
    ghost use Rattle.spec_engine.specs.Signatures.{places_code};
    ghost use Rattle.spec_protocol.specs.declared.event.Event.{Event};
    ghost use Rattle.dl_machine.specs.Setups.{setup_in};
    ghost use Rattle.dl_run.specs.Ran.{Ran, IsOver};

    ghost Value = { Ran };

    ghost coded = { Prim.hlevel (codes, places_code) };

    ghost view = { λ r. record { setup = setup_in r.setup; world = r.machine } };

    ghost invariant = { λ r. (es : List Event) × IsOver es (record { setup = setup_in r.setup; world = r.machine }) };
}

impl Run {
    /// Runs the machine of the setup over the schedule, and then to its end.
    pub fn new(alloc: Global, setup: Setup, schedule: &Schedule) -> Result<Run, OutOfMemory>
        requires setup { IsWithin setup }
        requires few { AreFew (events_in schedule.now) }
        ensures setup { IfOk result (λ r. r.setup ≡ setup_in setup) }
        ensures over { IfOk result (IsOver (events_in schedule.now)) }
    {
        let mut machine = Machine::new(alloc, &setup)?;
        drive(&mut machine, schedule)?;
        finish(&mut machine)?;
        machine.begin_epochs()?;
        Ok(Run { setup, machine })
    }
}
