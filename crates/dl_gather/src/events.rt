//! The events of a plan.
ghost use Rattle.std.specs.Prelude.{◌≡◌, Ok, IfOk, IfErr};
ghost use Rattle.dl_run.specs.Schedules.{AreFew, events_in};
ghost use Rattle.spec_program.specs.Built.{events_of};
ghost use Rattle.dl_gather.specs.Halts.{Refuses};
ghost use Rattle.dl_gather.specs.Inputs.{IsScheduleRead, schedule_view};

use crate::halt::Halt;
use crate::inputs::ScheduleInputs;
use crate::lines::script_line;
use dl_run::Schedule;
use dl_scriptio::ScriptRead;
use spec_program::status::Refusal;
use std::alloc::Global;

/// The events of the script, or as many as are to be drawn from the seed.
pub fn read_events(alloc: Global, seed: u64, inputs: ScheduleInputs) -> Result<Schedule, Halt>
    requires { IsScheduleRead (schedule_view inputs) }
    ensures events { IfOk result (λ s. events_of seed (schedule_view inputs) ≡ Ok (events_in s)) }
    ensures few { IfOk result (λ s. AreFew (events_in s)) }
    ensures halt { IfErr result (Refuses (events_of seed (schedule_view inputs))) }
{
    match inputs {
        ScheduleInputs::Script(ScriptRead::Good(events)) => Ok(Schedule::Script(events)),
        ScheduleInputs::Script(ScriptRead::Refused(line)) => Err(Halt::Refused(
            Refusal::Grammar,
            script_line(alloc, line)?,
        )),
        ScheduleInputs::Drawn(events) => Ok(Schedule::Seeded { seed, events }),
    }
}
