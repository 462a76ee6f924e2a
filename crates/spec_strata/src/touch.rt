//! Who has touched a word in a stratum.

/// No thread has touched the word; or one has looked at it, or several have; or one has stored to it. Threads by their
/// numbers.
#[derive(Clone, Copy, Debug, PartialEq, Eq)]
pub enum Touch {
    Untouched,
    SeenBy(u8),
    Shared,
    StoredBy(u8),
}
