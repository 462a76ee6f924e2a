//! Finishing: after the schedule, flights are made visible, and replays go on to their ends.
#![tactic(auto)]

mod finishing;
mod next;

pub use dl_entry::OutOfMemory;
pub use dl_machine::Machine;
pub use dl_sig::Sig;
pub use finishing::finish;
pub use next::next_event;
pub use spec_protocol::Event;
