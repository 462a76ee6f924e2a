//! Images: what an ELF32 file is loaded to in a memory of a given size, or the first rule that it breaks.
#![tactic(auto)]

mod header;
pub mod image;
mod loading;
mod overlapping;
mod segment;

pub use image::{ElfError, Image};
pub use loading::load;
