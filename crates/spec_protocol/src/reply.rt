//! The answers to events.
use dl_entry::{Actor, Why};
use spec_engine::answers::How;

/// What an event answers, in the order of a report.
#[derive(Clone, Copy, Debug, PartialEq, Eq)]
pub enum Reply {
    /// One instruction was run, and the chunk goes on.
    Ran,
    /// The chunk is closed now.
    Closed(How),
    /// This flight, of which the core was told, holds up the fetch or the load.
    Bounced(u8),
    /// The chunk is closed already, and no younger one begins.
    Waiting,
    /// The core holds no thread.
    Idle,
    /// The replayed sphere is complete, or has diverged.
    Stopped,
    /// The chunk has run no instruction.
    NothingRun,
    /// The request is a commit now, or the last part of one.
    Granted,
    /// The request is a piece of a commit now.
    Piece,
    /// The older chunk is still open.
    NotClosed,
    /// It is this actor's turn.
    NotTurn(Actor),
    /// No slot is free.
    WindowFull,
    /// This flight hits what the request has read or would store.
    Denied(u8),
    /// This flight of the same sphere has not retired.
    SphereBusy(u8),
    /// One word is in memory now.
    Drained,
    /// No word is left.
    Clean,
    /// The core is told now.
    Delivered,
    /// The core is told now. Its older chunk begins again and the younger one is given up, or the younger one alone begins again.
    Squashed,
    /// The core was told before.
    Already,
    /// The slot is free now.
    Retired,
    /// A word is left, or a core was not told.
    NotDone,
    /// The slot is free already.
    NoCommit,
    /// The core holds the thread now.
    Placed,
    /// This core holds the thread.
    Elsewhere(u8),
    /// There is no thread of that number.
    NoThread,
    /// The thread has ended, or has faulted.
    Ended,
    /// The handler is entered.
    Raised,
    /// The thread handles an interrupt already.
    Masked,
    /// The thread has no handler.
    NoHandler,
    /// A replayed sphere takes its interrupts from its log.
    FromLog,
    /// The DMA is a commit now.
    DmaDone,
    /// No request is outstanding.
    NoDma,
    /// After so many commits the replayed sphere left its log, for this reason.
    Diverged(u32, Why),
}
