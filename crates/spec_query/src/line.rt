//! A line of an answer about one word.
use dl_entry::Actor;

/// This commit, by its number in the log, of this actor stored to the word, and left it this value.
#[derive(Clone, Copy, Debug, PartialEq, Eq)]
pub struct Line {
    pub commit: u32,
    pub actor: Actor,
    pub value: u32,
}
