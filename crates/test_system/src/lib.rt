//! A system for tests, in memory: it tells what its files and its output hold, and its calls go wrong as a list says.
#![tactic(auto)]

mod output;
mod system;
mod troubles;

pub use output::TestOutput;
pub use system::{TestReader, TestSystem, TestWriter};
pub use troubles::Trouble;
