//! What requests come to.
use dl_entry::Why;
use dl_wbuf::Buffer;

/// What a granted request came to, with the words to fly.
#[derive(Drop)]
pub enum Moved {
    /// A whole commit, or the last part of one.
    Granted(Buffer),
    /// A piece of a commit.
    Piece(Buffer),
    /// The replay left its log after so many commits.
    Diverged(u32, Why),
}

/// How many bytes a DMA would store after its count, or why the replay leaves its log there.
#[derive(Clone, Copy)]
pub enum DmaSize {
    Bytes(u32),
    Diverged(Why),
}
