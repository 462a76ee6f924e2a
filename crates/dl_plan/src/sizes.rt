//! The numbers in a plan, each in its limits.
ghost use Rattle.std.specs.Prelude.{◌≡◌, ◌≤◌, ◌^◌, IfSome, IsTrue, map};
ghost use Rattle.std.specs.List.{list_all};
ghost use Rattle.dl_plan.specs.Limits.{limited, count_of, epoch_of, keep_of, is_signature, signature_of, memory_of, version_of, longest_chunk};
ghost use Rattle.dl_plan.specs.Sizes.{sizes_of, sizes_in, events_in, has_good_spheres, has_good_numbers};
ghost use Rattle.dl_plan.specs.Values.{AreSizes, IsCount, IsMemory};
ghost use Rattle.dl_plan.specs.Views.{top_view, entry_view, entries_view};

use crate::entries::Entries;
use crate::plan::Sizes;
use crate::sphere::SphereEntries;
use crate::top::TopEntries;

/// The most events of a schedule, the most commits of a log, and the most bytes of a memory.
const MOST: u64 = 1 << 24;

/// The numbers of a plan's machine. `None` if one is outside its limits, or there are not 1 to 8 spheres.
pub(crate) fn sizes_in(entries: &Entries<'_>) -> Option<Sizes>
    ensures value { result ≡ sizes_in (entries_view entries.now) }
    ensures limits { IfSome result AreSizes }
    ensures spheres { IfSome result (λ s. IsTrue (has_good_spheres (map entry_view entries.now.spheres.items))) }
{
    if has_good_spheres(&entries.spheres) {
        sizes_of(&entries.top)
    } else {
        None
    }
}

/// Whether there are 1 to 8 spheres, each with its numbers in their limits.
fn has_good_spheres(spheres: &[SphereEntries<'_>]) -> bool
    ensures { result ≡ has_good_spheres (map entry_view spheres.now) }
{
    let count = spheres.len();
    1 <= count && count <= 8 && have_good_numbers(spheres)
}

/// Whether the numbers of each sphere are in their limits.
fn have_good_numbers(spheres: &[SphereEntries<'_>]) -> bool
    ensures { result ≡ list_all has_good_numbers (map entry_view spheres.now) }
{
    spheres.iter().all(|sphere| has_good_numbers(sphere))
}

/// Whether the numbers of the sphere are in their limits, whatever its role.
fn has_good_numbers(sphere: &SphereEntries<'_>) -> bool
    ensures { result ≡ has_good_numbers (entry_view sphere.now) }
{
    memory_of(sphere.memory).is_some()
        && version_of(sphere.version).is_some()
        && count_of(sphere.from).is_some()
        && count_of(sphere.to).is_some()
        && epoch_of(sphere.epoch).is_some()
        && keep_of(sphere.keep).is_some()
}

/// The numbers at a plan's top. `None` if one is outside its limits.
fn sizes_of(top: &TopEntries<'_>) -> Option<Sizes>
    ensures value { result ≡ sizes_of (top_view top.now) }
    ensures limits { IfSome result AreSizes }
{
    Some(Sizes {
        cores: limited(top.cores, 1, 8)? as u8,
        chunk: limited(top.chunk, 16, 65536)? as u32,
        buffer: limited(top.buffer, 1, 4096)? as u32,
        window: limited(top.window, 1, 8)? as u8,
        depth: limited(top.depth.unwrap_or(1), 1, 2)? as u8,
        signature: signature_of(top.signature)?,
        seed: limited(top.seed.unwrap_or(0), 0, i64::MAX as u64)?,
    })
}

/// The number of events, if one is there. `None` if it is outside its limits.
pub(crate) fn events_in(top: &TopEntries<'_>) -> Option<Option<u32>>
    ensures value { result ≡ events_in (top_view top.now) }
    ensures within { IfSome result IsCount }
{
    count_of(top.events)
}

/// A number of events or commits, if one is there. `None` if it is outside its limits.
pub(crate) fn count_of(count: Option<i64>) -> Option<Option<u32>>
    ensures value { result ≡ count_of count }
    ensures within { IfSome result IsCount }
{
    match count {
        Some(number) => Some(Some(limited(number, 0, MOST)? as u32)),
        None => Some(None),
    }
}

/// The commits of an epoch, if a number is there. `None` if it is outside its limits.
pub(crate) fn epoch_of(epoch: Option<i64>) -> Option<Option<u32>>
    ensures value { result ≡ epoch_of epoch }
    ensures within { IfSome result (λ e. IfSome e (λ n. (1 ≤ n) × (n ≤ 2 ^ 24))) }
{
    match epoch {
        Some(number) => Some(Some(limited(number, 1, MOST)? as u32)),
        None => Some(None),
    }
}

/// How many epochs are kept, if a number is there. `None` if it is outside its limits.
pub(crate) fn keep_of(keep: Option<i64>) -> Option<Option<u32>>
    ensures value { result ≡ keep_of keep }
    ensures within { IfSome result (λ k. IfSome k (λ n. (1 ≤ n) × (n ≤ 64))) }
{
    match keep {
        Some(number) => Some(Some(limited(number, 1, 64)? as u32)),
        None => Some(None),
    }
}

/// The bits of a signature.
fn signature_of(number: i64) -> Option<u32>
    ensures value { result ≡ signature_of number }
    ensures within { IfSome result (λ n. IsTrue (is_signature n)) }
{
    let bits = limited(number, 64, 2048)? as u32;
    if is_signature(bits) { Some(bits) } else { None }
}

/// The bytes of a memory.
pub(crate) fn memory_of(number: i64) -> Option<u32>
    ensures value { result ≡ memory_of number }
    ensures within { IfSome result IsMemory }
{
    let bytes = limited(number, 4096, MOST)? as u32;
    if bytes % 4096 == 0 { Some(bytes) } else { None }
}

/// The version of a log, 1 if the key isn't there.
pub(crate) fn version_of(version: Option<i64>) -> Option<u8>
    ensures value { result ≡ version_of version }
    ensures within { IfSome result (λ v. (1 ≤ v) × (v ≤ 2)) }
{
    Some(limited(version.unwrap_or(1), 1, 2)? as u8)
}

/// The instructions of the longest chunk that logs of a version can have.
pub(crate) fn longest_chunk(version: u8) -> u32
    ensures { result ≡ longest_chunk version }
{
    if version == 1 { 4096 } else { 65_536 }
}

/// The number, if it is from `low` to `high`.
fn limited(number: i64, low: u64, high: u64) -> Option<u64>
    ensures value { result ≡ limited low high number }
    ensures within { IfSome result (λ n. (low ≤ n) × (n ≤ high)) }
{
    if number < 0 {
        return None;
    }
    let number = number as u64;
    if low <= number && number <= high {
        Some(number)
    } else {
        None
    }
}

/// Whether the bits of a signature are a power of two from 64 to 2048.
fn is_signature(bits: u32) -> bool
    ensures { result ≡ is_signature bits }
{
    matches!(bits, 64 | 128 | 256 | 512 | 1024 | 2048)
}
