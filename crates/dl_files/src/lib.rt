//! The outside of the tool: files and a sink as traits, over which everything above is proved; with
//! some in memory, some in memory whose calls fail as a list says, and the real ones.
#![tactic(auto)]

mod beginning;
mod calls;
mod error;
mod faults;
mod files;
mod good_files;
mod good_sink;
mod mem_files;
mod mem_sink;
mod opened;
mod os;
mod part;
mod real_files;
mod sink;
mod std_sink;
mod store;
mod streams;
mod system;

pub use beginning::Beginning;
pub use error::{FileError, SinkError};
pub use faults::Faults;
pub use files::Files;
pub use good_files::GoodFiles;
pub use good_sink::GoodSink;
pub use mem_files::MemFiles;
pub use mem_sink::MemSink;
pub use os::Os;
pub use real_files::{RealFiles, SystemFiles};
pub use sink::Sink;
pub use std_sink::{OutputSink, StdSink};
pub use system::{Output, System};
