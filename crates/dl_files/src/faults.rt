//! How many calls of files failed.

/// How many calls failed, and how many of those for another reason than that a name isn't there. Neither count ever falls,
/// and each counts as risen in every call once it is `u64::MAX`.
#[derive(Clone, Copy, Debug, PartialEq, Eq)]
pub struct Faults {
    pub all: u64,
    pub failed: u64,
}
