//! How a file begins.

/// The beginning of a file, as it was read.
#[derive(Drop)]
pub enum Beginning {
    /// This many bytes of a piece; other parts can be read too.
    Part(usize),
    /// All of its bytes.
    Whole(Vec<u8>),
}
