//! Values by thread and index, in that order: each thread has a list of its own.
#![tactic(auto)]

mod lane;
mod moments;

pub use dl_entry::OutOfMemory;
pub use lane::{Lane, Mark};
pub use moments::{Moments, THREADS};
