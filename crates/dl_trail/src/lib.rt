//! A trail: states of a log's play, kept after every so many commits, from which any slice of the log is played.
#![tactic(auto)]

mod text;
mod trail;

pub use dl_elf::Image;
pub use dl_entry::{End, OutOfMemory};
pub use spec_log::Log;
pub use text::Text;
pub use trail::Trail;
