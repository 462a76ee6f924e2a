//! What the calls of the engine answer.

/// How a chunk was closed: it has run as many instructions as it may, its next instruction is serial, there is no room for
/// its next store, or an event cut it off.
#[derive(Clone, Copy, Debug, PartialEq, Eq)]
pub enum How {
    Limit,
    Serial,
    Overflow,
    Cut,
}

/// The outcome of one step of a chunk.
#[derive(Clone, Copy, Debug, PartialEq, Eq)]
pub enum Stepped {
    /// One instruction was run, and the chunk goes on.
    Ran,
    /// The chunk is closed.
    Closed(How),
    /// This flight, of which the core was told, holds up the fetch or the load. No instruction was run.
    Bounced(u8),
}

/// The outcome of cutting a chunk off.
#[derive(Clone, Copy, Debug, PartialEq, Eq)]
pub enum CutReply {
    /// It was closed before.
    Waiting,
    /// It has run no instruction, and stays open.
    NothingRun,
    /// It is closed now.
    Closed,
}

/// The outcome of draining a slot.
#[derive(Clone, Copy, Debug, PartialEq, Eq)]
pub enum Drain {
    /// The slot is free.
    NoCommit,
    /// No word is left.
    Clean,
    /// The first word left is in memory now.
    Drained,
}

/// The outcome of telling a core of a slot's flight.
#[derive(Clone, Copy, Debug, PartialEq, Eq)]
pub enum Deliver {
    /// The slot is free.
    NoCommit,
    /// The core was told before.
    Already,
    /// The core is told now, and the flight hits what its chunk has read or written.
    Squashed,
    /// The core is told now.
    Delivered,
}

/// The outcome of retiring a slot's flight.
#[derive(Clone, Copy, Debug, PartialEq, Eq)]
pub enum Retire {
    /// The slot is free.
    NoCommit,
    /// A word is left, or a core was not told.
    NotDone,
    /// The slot is free now.
    Retired,
}

/// The outcome of a request for a chunk's commit.
#[derive(Clone, Copy, Debug, PartialEq, Eq)]
pub enum Asked {
    Grant,
    /// This flight hits what the chunk has read or written, and none in a lower slot does.
    Denied(u8),
}

/// The outcome of a request for a serial step.
#[derive(Clone, Copy, Debug, PartialEq, Eq)]
pub enum AskedSerial {
    Grant,
    /// This flight is of the same sphere, and none in a lower slot is.
    SphereBusy(u8),
}
