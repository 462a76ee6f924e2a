//! Files that are to be written.
use dl_logfmt::Log;

/// A file to be written.
#[derive(Drop)]
pub struct NamedContent {
    pub name: String,
    pub content: Content,
}

/// What a file is to hold.
#[derive(Drop)]
pub enum Content {
    /// These bytes, written at once.
    Bytes(Vec<u8>),
    /// The bytes of this log, written in pieces.
    Log(Log),
}

/// Why writing stops before its end.
#[derive(Clone, Copy)]
pub enum Stop {
    /// The write of that index failed.
    Failed(usize),
    /// Memory ran out.
    OutOfMemory,
}
