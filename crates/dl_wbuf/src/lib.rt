//! A write buffer: a chunk's stores that aren't in memory yet, seen as a list of words in the order of their first store.
#![tactic(auto)]

pub mod buffer;
mod entry;
mod index;
mod lanes;
pub mod stored;
mod table;

pub use buffer::{Buffer, Full};
pub use stored::Stored;
