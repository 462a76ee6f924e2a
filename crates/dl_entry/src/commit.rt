//! What one commit did.
use crate::actor::Actor;
use crate::sequence::{Bytes, Sequence};

/// What is committed: a thread's chunk, its serial step, a DMA, or a piece of a replayed chunk.
#[derive(Clone, Copy, Debug, PartialEq, Eq)]
pub enum CommitKind {
    Chunk,
    Serial,
    Dma,
    Piece,
}

/// A value that an instruction loaded, and the address that it was loaded from.
#[derive(Clone, Copy, Debug, PartialEq, Eq)]
pub struct Load {
    pub address: u32,
    pub value: u32,
}

/// Bytes that a serial step put out on a channel.
#[derive(Debug, Drop)]
pub struct Output {
    pub channel: u32,
    pub bytes: Bytes,
}

/// The loads of a commit, in the order in which they were run.
pub type Loads = Sequence<Load>;

/// The outputs of a commit, in the order in which they were put out.
pub type Outputs = Sequence<Output>;

/// A commit: its size is the number of instructions of a chunk, and 0 for a serial step and a DMA.
#[derive(Debug, Drop)]
pub struct Commit {
    pub actor: Actor,
    pub kind: CommitKind,
    pub size: u32,
    pub loads: Loads,
    pub outputs: Outputs,
}
