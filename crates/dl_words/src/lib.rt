//! The words of a command line: which command they mean, with its operands, or none.
#![tactic(auto)]

mod apps;
pub mod command;
mod interval;
mod matching;
mod number;
mod playback;
mod query;
mod reading;

pub use command::Command;
pub use dl_entry::OutOfMemory;
pub use interval::Interval;
pub use playback::Playback;
pub use query::{Query, Question};
pub use reading::read_words;
