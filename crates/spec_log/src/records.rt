//! The entries of a log except for its sizes.
use dl_entry::{Actor, Bytes, Sequence};

/// The actors of the commits, in their order.
pub type Order = Sequence<Actor>;

/// An interrupt that a thread took: the number of its commits before, and the value that it got.
#[derive(Clone, Copy, Debug, PartialEq, Eq)]
pub struct Interrupt {
    pub thread: u8,
    pub index: u32,
    pub value: u32,
}

/// What a DMA stored: the index of its commit, and its bytes.
#[derive(Debug, Drop)]
pub struct DmaRecord {
    pub position: u32,
    pub bytes: Bytes,
}
