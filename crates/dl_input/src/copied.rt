//! Bytes that are copied into a log, with memory that may be ready for them.
ghost use Rattle.std.specs.Prelude.{◌≡◌, ◌≤◌, [], length, vec_capacity, IfOk, IsOk, OnOk, OnErr};
ghost use Rattle.dl_entry.specs.Numbers.{most_bytes};

use dl_entry::{Bytes, OutOfMemory};
use std::alloc::Global;
use std::mem;

/// A copy of the bytes: of their own length if there is memory for it, else in the spare room.
pub fn copied(alloc: Global, bytes: &[u8], spare: &mut Vec<u8>) -> Result<Bytes, OutOfMemory>
    requires few { length bytes.now ≤ most_bytes }
    requires empty { spare.old.items ≡ [] }
    ensures copy { IfOk result (λ copy. copy ≡ bytes.now) }
    ensures empty { spare.new.items ≡ [] }
    ensures room { most_bytes ≤ vec_capacity spare.old → IsOk result }
{
    if let Ok(copy) = Bytes::from_slice(alloc, bytes) {
        return Ok(copy);
    }
    let mut copy = mem::replace(spare, Vec::new(alloc));
    copy.extend_from_slice(bytes)?;
    Ok(Bytes::from_vec(copy))
}
