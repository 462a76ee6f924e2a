//! Whether segments overlap.
ghost use Rattle.std.specs.Prelude.{◌≡◌, true, IfOk};
ghost use Rattle.std.specs.List.{list_all};
ghost use Rattle.std.specs.List.Sorted.{IsPermutation, IsNonDecreasingBy};
ghost use Rattle.dl_elf.specs.Rules.{is_in_memory, overlap as do_overlap};

use crate::segment::Segment;
use std::alloc::{AllocError, Global};

/// Whether two of the segments share an address. All of them are in a memory of that size.
pub fn overlap(alloc: Global, segments: &[Segment], size: u32) -> Result<bool, AllocError>
    requires { list_all (is_in_memory size) segments.now ≡ true }
    ensures { IfOk result (λ shared. shared ≡ do_overlap size segments.now) }
{
    Ok(neighbours_overlap(&by_address(alloc, segments)?, size))
}

fn by_address(alloc: Global, segments: &[Segment]) -> Result<Vec<Segment>, AllocError>
    ensures moved { IfOk result (λ sorted. IsPermutation segments.now sorted.items) }
    ensures rising { IfOk result (λ sorted. IsNonDecreasingBy (λ s. s.address) sorted.items) }
{
    let mut sorted = Vec::from_slice(alloc, segments)?;
    sorted.sort_unstable_by_key(|segment| segment.address);
    Ok(sorted)
}

// The same for segments in the order of their addresses, where each must begin after all before it. A segment without
// bytes has no address to share.
fn neighbours_overlap(sorted: &[Segment], size: u32) -> bool
    requires inside { list_all (is_in_memory size) sorted.now ≡ true }
    requires rising { IsNonDecreasingBy (λ s. s.address) sorted.now }
    ensures { result ≡ do_overlap size sorted.now }
{
    let mut end = 0;
    for segment in sorted {
        if segment.memory_size == 0 {
            continue;
        }
        if u64::from(segment.address) < end {
            return true;
        }
        end = segment.end();
    }
    false
}
