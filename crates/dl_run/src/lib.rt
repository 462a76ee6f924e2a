//! Runs the machine of a setup over a schedule and then to its end, and makes the texts of the run.
#![tactic(auto)]

mod driving;
mod lines;
mod reading;
mod run;
mod schedule;
mod tails;
mod texts;

pub use dl_event::Events;
pub use run::Run;
pub use schedule::Schedule;
pub use texts::SphereLog;
