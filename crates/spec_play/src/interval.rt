//! Which commits of a log are replayed.

/// The commits of a log from the first, by its number, up to but not the last.
#[derive(Clone, Copy, Debug, PartialEq, Eq)]
pub struct Interval {
    pub first: u32,
    pub last: u32,
}
