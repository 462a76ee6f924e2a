//! A question about one word of a log, as words ask it.
use crate::playback::Playback;

/// What is asked about a word.
#[derive(Clone, Copy, PartialEq, Eq)]
pub enum Question {
    /// Every commit that stored to it.
    Watch,
    /// The last one of them below commit `before`.
    Who { before: u32 },
    /// The first one of them that left it another value than this, unless the image has another.
    When { value: u32 },
}

/// An image with a log of it, the address of a word in the memory, and what is asked about that word.
#[derive(Clone, Copy, PartialEq, Eq)]
pub struct Query<'a> {
    pub playback: Playback<'a>,
    pub address: u32,
    pub question: Question,
}
