//! An image: every byte of a memory, and where the first thread starts.
ghost use Rattle.std.specs.Prelude.{◌≡◌};

use std::marker::Model;
use thiserror::Error;

/// Why there is no image.
#[derive(Clone, Copy, Debug, PartialEq, Eq, Error)]
pub enum ElfError {
    /// The file breaks the rule of that number.
    #[error("refused image {0}")]
    Refused(u8),
    /// Memory ran out.
    #[error("out of memory")]
    OutOfMemory,
}

/// A program laid out in a memory of a given size: its bytes, and the address at which its first thread starts.
#[derive(Debug, Drop)]
pub struct Image {
    size: u32,
    entry: u32,
    bytes: Vec<u8>,
}

impl Model for Image {
    ghost use Rattle.dl_elf.specs.Images.{Image, IsImage};

    ghost Value = { Image };

    ghost view = { λ i. record { size = i.size; entry = i.entry; bytes = i.bytes.items } };

    ghost invariant = { λ i. IsImage (record { size = i.size; entry = i.entry; bytes = i.bytes.items }) };
}

impl Image {
    ghost use Rattle.dl_elf.specs.Images.{IsImage};

    /// The image of these parts.
    pub(crate) fn from_parts(size: u32, entry: u32, bytes: Vec<u8>) -> Image
        requires { IsImage (record { size = size; entry = entry; bytes = bytes.items }) }
        ensures { result ≡ record { size = size; entry = entry; bytes = bytes.items } }
    {
        Image { size, entry, bytes }
    }

    /// The memory's size in bytes.
    pub fn size(&self) -> u32
        ensures value { result ≡ self.now.size }
        ensures image { IsImage self.now }
    {
        self.size
    }

    /// The address at which the first thread starts, a multiple of 4 below the size.
    pub fn entry(&self) -> u32
        ensures value { result ≡ self.now.entry }
        ensures image { IsImage self.now }
    {
        self.entry
    }

    /// Every byte of the memory, the one at address 0 first.
    pub fn bytes(&self) -> &[u8]
        ensures value { result.now ≡ self.now.bytes }
        ensures image { IsImage self.now }
    {
        &self.bytes
    }
}
