//! The outcome of one instruction.
use spec_isa::thread::{Kind, Load};

/// The outcome of one instruction. Except after `Next` the thread is as it was.
#[derive(Clone, Copy, Debug, PartialEq, Eq)]
pub enum Did {
    /// It was run, and made this load.
    Next(Option<Load>),
    /// It is serial, and was not run.
    Serial(Kind),
    /// Its store is to a new word, and there is no room for one more.
    NoRoom,
    /// This flight holds up its fetch or its load.
    Bounced(u8),
}
