//! Serialisation points.
use crate::actor::Actor;
use crate::commit::CommitKind;

/// What one event did to a sphere, in the order in which such events took effect. The moment is the
/// number of events before it; `short` says that a chunk was closed before its standard size.
#[derive(Clone, Copy, Debug, PartialEq, Eq)]
pub enum Point {
    Commit {
        moment: u64,
        sphere: u8,
        actor: Actor,
        kind: CommitKind,
        size: u32,
        short: bool,
    },
    Raise {
        moment: u64,
        sphere: u8,
        thread: u8,
        value: u32,
    },
}
