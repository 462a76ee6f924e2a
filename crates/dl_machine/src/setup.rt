//! What a machine is made of.
use dl_entry::{Bytes, Sequence};
use dl_sphere::SphereSetup;

/// The numbers of a plan, the seed and the input of the devices, and each sphere.
#[derive(Drop)]
pub struct Setup {
    pub cores: u8,
    pub window: u8,
    /// The standard size of a chunk, the words that a write buffer holds, and the bits of a signature.
    pub s: u32,
    pub capacity: u32,
    pub bits: u32,
    /// How many chunks of its thread a core may have in flight, 1 or 2.
    pub depth: u8,
    pub seed: u64,
    pub input: Bytes,
    pub spheres: Sequence<SphereSetup>,
}
