//! When a word first had another value.
use crate::line::Line;

/// When a word that is looked at after each commit first had another value than the one that is asked about.
#[derive(Clone, Copy, Debug, PartialEq, Eq)]
pub enum When {
    /// In the image.
    Start,
    /// After this commit.
    At(Line),
    /// Never.
    None,
}
