//! What is read from.
use std::alloc::Global;

/// The bytes that are read, and the memory for what is read from them.
#[derive(Clone, Copy)]
pub struct Source<'a> {
    pub alloc: Global,
    pub bytes: &'a [u8],
}
