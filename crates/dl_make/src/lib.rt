//! Generated images: for each number the file of a program whose threads all store to the same word.
#![tactic(auto)]

mod image;
mod instruction;
mod program;

pub use dl_entry::OutOfMemory;
pub use image::make;
