//! The commands: what the words of one ask for is computed from the files that it names, written, and said. Its one call is the
//! program's.
#![tactic(auto)]

mod assembling;
mod drilling;
mod ending;
mod inspecting;
mod intervals;
mod job;
mod making;
mod migrating;
mod plans;
mod preparing;
mod querying;
mod running;
mod stratifying;
mod tails;
mod telling;
mod top;
mod walking;
mod writing;
mod written;

pub use top::{delorean, delorean_in_memory};
