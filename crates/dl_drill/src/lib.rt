//! Drills: a generated image is recorded on four cores, and its log is replayed on one, all in memory.
#![tactic(auto)]

mod drilling;
mod setup;

pub use drilling::drill;
