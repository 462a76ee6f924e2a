//! How much of a log a play has used.

/// How many of a log's input, interrupt and DMA records are taken.
#[derive(Clone, Copy, Debug, PartialEq, Eq)]
pub struct Used {
    pub inputs: u32,
    pub interrupts: u32,
    pub dmas: u32,
}
