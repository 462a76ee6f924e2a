//! The footprint of a chunk: the words that it looks at or stores to.
ghost use Rattle.std.specs.Prelude.{◌≡◌, []};

use dl_entry::OutOfMemory;
use std::alloc::Global;

/// The words of a chunk by their numbers, a quarter of their addresses: those that its instructions are fetched from or load,
/// and those that it stores to. One that is looked at several times is there as often.
#[derive(Drop)]
pub struct Footprint {
    pub looked: Vec<u32>,
    pub stored: Vec<u32>,
}

impl Footprint {
    /// Of no chunk yet.
    pub fn new(alloc: Global) -> Footprint
        ensures looked { result.looked.items ≡ [] }
        ensures stored { result.stored.items ≡ [] }
    {
        Footprint {
            looked: Vec::new(alloc),
            stored: Vec::new(alloc),
        }
    }
}
