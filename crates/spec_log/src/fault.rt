//! A fault of bytes that should be a log.

/// The number of what is wrong, and the offset of the field or entry where it is, in bytes: 1 the bytes end inside a field
/// (the offset is their number), 2 the magic word, 3 the version, 4 the mode, 5 another value out of its range, 6 an entry
/// that doesn't come after the one before it, 7 bytes after the last section.
#[derive(Clone, Copy, Debug, PartialEq, Eq)]
pub struct Fault {
    pub number: u8,
    pub offset: u64,
}
