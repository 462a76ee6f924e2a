//! A sphere's memory, seen as the list of its bytes, and snapshots of it.
#![tactic(auto)]

pub mod memory;
mod page;
mod pages;
mod shared;
pub mod snapshot;

pub use dl_elf::Image;
pub use memory::Memory;
pub use snapshot::Snapshot;
