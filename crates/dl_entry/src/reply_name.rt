//! The names of replies.
ghost use Rattle.std.specs.Prelude.{◌≡◌, ◌<◌};
ghost use Rattle.dl_entry.specs.ReplyName.{place};

/// A reply without its operands, in the order of a report.
#[derive(Clone, Copy, Debug, PartialEq, Eq)]
pub enum ReplyName {
    Ran,
    Closed,
    Bounced,
    Waiting,
    Idle,
    Stopped,
    NothingRun,
    Granted,
    Piece,
    NotClosed,
    NotTurn,
    WindowFull,
    Denied,
    SphereBusy,
    Drained,
    Clean,
    Delivered,
    Squashed,
    Already,
    Retired,
    NotDone,
    NoCommit,
    Placed,
    Elsewhere,
    NoThread,
    Ended,
    Raised,
    Masked,
    NoHandler,
    FromLog,
    DmaDone,
    NoDma,
    Diverged,
}

impl ReplyName {
    /// How many names there are.
    pub const COUNT: usize = 33;

    /// The name's place in the order of a report, from 0.
    pub fn place(self) -> usize
        ensures place { result ≡ place self }
        ensures within { result < Self.COUNT }
    {
        self as usize
    }
}
