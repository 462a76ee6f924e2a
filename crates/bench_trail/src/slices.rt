//! Slices near the end of a trail.
ghost use Rattle.std.specs.Prelude.{◌≤◌};

use dl_entry::OutOfMemory;
use dl_trail::{Text, Trail};

/// A checksum of the texts of that many slices, each of ten commits, the first one the last ten of so many.
pub fn checksum(trail: &Trail, commits: u32, slices: u32) -> Result<u32, OutOfMemory> {
    let mut sum: u32 = 0;
    for slice in 0..slices {
        let before_the_end = slice % 1000;
        let i = commits.saturating_sub(before_the_end + 10);
        let j = commits.saturating_sub(before_the_end);
        for byte in &slice_of(trail, i, j)?.bytes {
            sum = sum.wrapping_mul(31).wrapping_add(u32::from(*byte));
        }
    }
    Ok(sum)
}

// The slice, taken a second time if memory ran out: the trail is as it was.
fn slice_of(trail: &Trail, i: u32, j: u32) -> Result<Text, OutOfMemory>
    requires { i ≤ j }
{
    match trail.slice(i, j) {
        Ok(text) => Ok(text),
        Err(_) => trail.slice(i, j),
    }
}
