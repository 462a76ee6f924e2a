//! The results of calls that stand for no number.

pub(crate) const UNKNOWN_CALL: u32 = 0xFFFF_FFFF;

pub(crate) const BAD_BUFFER: u32 = 0xFFFF_FFFE;

pub(crate) const NOTHING_NOW: u32 = 0xFFFF_FFFD;

pub(crate) const REFUSED: u32 = 0xFFFF_FFFC;
