//! Whose turn it is in a replay.
use dl_entry::End;

/// A thread's turn or the DMA's, or how the replay ended.
#[derive(Clone, Copy)]
pub enum TurnOrEnd {
    Turn(u8),
    TurnOfDma,
    Ended(End),
}
