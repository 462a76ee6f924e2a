//! What a sphere took from outside.
use crate::sequence::Bytes;

/// The answer of an outside call or of a device load: the kind is the call's number, or stands for
/// one of the two device words that can be read; the bytes are those stored into the caller's buffer.
#[derive(Debug, Drop)]
pub struct Input {
    pub kind: u8,
    pub result: u32,
    pub bytes: Bytes,
}

/// An outstanding DMA request: the address of its buffer, and the most bytes that it takes.
#[derive(Clone, Copy, Debug, PartialEq, Eq)]
pub struct Request {
    pub buf: u32,
    pub len: u32,
}
