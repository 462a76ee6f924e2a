//! The sizes that a log gives.
use dl_entry::Sequence;

/// The size of a short chunk, one that was closed before its standard size: its thread, the number of the thread's
/// commits before, and the number of its instructions.
#[derive(Clone, Copy, Debug, PartialEq, Eq)]
pub struct ShortSize {
    pub thread: u8,
    pub index: u32,
    pub size: u32,
}

/// Either the size of each commit, in the order of commits, or those of the short chunks alone.
#[derive(Debug, Drop)]
pub enum Sizes {
    Each(Sequence<u32>),
    Short(Sequence<ShortSize>),
}
