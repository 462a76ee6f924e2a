//! Recording: the log of the commits and interrupts that are noted, in either version and in any mode.
#![tactic(auto)]

mod epochs;
mod recorder;

pub use dl_entry::{Commit, Input, OutOfMemory};
pub use dl_kernel::State;
pub use dl_mem::Snapshot;
pub use dl_mode::Noting;
pub use epochs::Base;
pub use recorder::Recorder;
pub use spec_log::Log;
