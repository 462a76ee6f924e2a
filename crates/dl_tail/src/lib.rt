//! Tails as bytes.
#![tactic(auto)]

mod error;
mod header;
mod later;
mod law;
mod log_stages;
mod numbers;
mod puts;
mod reading;
mod rows;
mod tail;
mod thread;
mod threads;
mod writing;

pub use dl_entry::OutOfMemory;
pub use error::TailError;
pub use later::{begun, dmas_passed, first_interrupt, has_more_left, log_later};
pub use law::reading_undoes_writing;
pub use reading::read_tail;
pub use tail::{Tail, TailParts};
pub use writing::write_tail;
