//! How a walk over a log ends.
use dl_entry::End;

/// A walk ends as the play of its log does, or stops before that end.
#[derive(Clone, Copy, Debug, PartialEq, Eq)]
pub enum WalkEnd {
    /// The play has ended in this way.
    Ended(End),
    /// This many commits are done, as many as were asked for, and the log has more.
    Reached(u32),
}
