//! A log as text, for a reader: its header, and a line for each entry.
#![tactic(auto)]

mod entry;
mod inspect;
mod order;
mod sizes;

pub use dl_entry::OutOfMemory;
pub use inspect::inspect_text;
pub use spec_log::Log;
