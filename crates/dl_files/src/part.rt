//! A part of a file's bytes, as it is copied into a piece.
ghost use Rattle.std.specs.Prelude.{◌≡◌, ◌≤◌, length, take, drop};

// Copies the bytes from an offset on into a piece, as many as fit, and gives their number.
pub(crate) fn copy_part(bytes: &[u8], offset: u64, into: &mut [u8]) -> usize
    ensures bytes { take result into.new ≡ take (length into.old) (drop offset bytes.now) }
    ensures most { result ≤ length into.old }
{
    let from = bytes.len().min(offset as usize);
    let left = &bytes[from..];
    let count = left.len().min(into.len());
    into[..count].copy_from_slice(&left[..count]);
    count
}
