//! What the ranges of a log's entries depend on.

/// The version of a log, how many threads it may have, and its standard chunk size.
#[derive(Clone, Copy, Debug)]
pub struct Shape {
    pub version: u8,
    pub threads: u8,
    pub s: u32,
}
