//! The bytes of one sphere. They are read and written by the word: four bytes from a multiple of 4 on, little-endian.
ghost use Rattle.std.specs.Prelude.{◌≡◌, ◌+◌, ◌/◌, ◌%◌, ◌<◌, ◌≤◌, length, take, drop, IfOk};
ghost use Rattle.std.specs.List.{concat};
ghost use Rattle.spec_isa.specs.Words.{lay, read};
ghost use Rattle.dl_elf.specs.Images.{IsSize};
ghost use Rattle.spec_isa.specs.Masks.{bytes_of};
ghost use Rattle.dl_mem.specs.Memories.{IsMemory, IsPaged};

use crate::page::{PAGE, Page, word_at};
use crate::pages::{copy_pages, keep, new_pages, renewals, restored_pages, shared_pages};
use crate::snapshot::Snapshot;
use dl_elf::Image;
use std::alloc::{AllocError, Global};
use std::marker::Model;

/// The memory of a sphere, from 4,096 to 16,777,216 bytes in whole pages of 4,096.
#[derive(Debug, Drop)]
pub struct Memory {
    pages: Vec<Page>,
}

impl Model for Memory {
    ghost use Rattle.std.specs.Prelude.{ℕ, List};
    ghost use Rattle.std.specs.List.{concat};
    ghost use Rattle.dl_mem.specs.Memories.{IsPaged};

    ghost Value = { List ℕ };

    ghost view = { λ m. concat m.pages.items };

    ghost invariant = { λ m. IsPaged m.pages.items };
}

impl Memory {
    /// A memory with an image's bytes.
    pub fn new(alloc: Global, image: &Image) -> Result<Memory, AllocError>
        ensures { IfOk result (λ memory. memory ≡ image.now.bytes) }
    {
        Memory::from_bytes(alloc, image.bytes())
    }

    /// A memory with these bytes.
    pub fn from_bytes(alloc: Global, bytes: &[u8]) -> Result<Memory, AllocError>
        requires { IsSize (length bytes.now) }
        ensures { IfOk result (λ memory. memory ≡ bytes.now) }
    {
        let (pages, _) = bytes.as_chunks::<PAGE>();
        Ok(Memory {
            pages: new_pages(alloc, pages)?,
        })
    }

    /// A memory with a snapshot's bytes, which it shares until something is put to them.
    pub fn from_snapshot(alloc: Global, from: &Snapshot) -> Result<Memory, AllocError>
        ensures { IfOk result (λ memory. memory ≡ from.now) }
    {
        Ok(Memory {
            pages: restored_pages(alloc, from.pages())?,
        })
    }

    /// The number of its bytes.
    pub fn size(&self) -> u32
        ensures value { result ≡ length self.now }
        ensures memory { IsMemory self.now }
    {
        (self.pages.len() * PAGE) as u32
    }

    /// The word at an address inside.
    #[inline(always)]
    pub fn word(&self, addr: u32) -> u32
        requires aligned { addr % 4 ≡ 0 }
        requires inside { addr + 4 ≤ length self.now }
        ensures value { result ≡ read self.now (addr / 4) }
        ensures memory { IsMemory self.now }
    {
        let at = addr as usize;
        word_at(self.pages[at / PAGE].bytes(), at % PAGE)
    }

    /// Copies the bytes from an address on, as many as the slice has room for.
    pub fn copy_to(&self, addr: u32, into: &mut [u8])
        requires inside { addr + length into.old ≤ length self.now }
        ensures { into.new ≡ take (length into.old) (drop addr self.now) }
    {
        copy_pages(&self.pages, addr as usize, into);
    }

    /// Writes those bytes of the value whose bits are set in the mask into the word at an address inside.
    pub fn put(&mut self, addr: u32, mask: u8, value: u32)
        requires aligned { addr % 4 ≡ 0 }
        requires inside { addr + 4 ≤ length self.old }
        ensures laid { self.new ≡ lay self.old (bytes_of (addr / 4) mask value) }
        ensures before { IsMemory self.old }
        ensures after { IsMemory self.new }
    {
        let at = addr as usize;
        self.pages[at / PAGE].put(at % PAGE, mask, value);
    }

    /// The memory as it is now, for a memory that can't be changed. The next snapshot copies the pages with a mark again.
    pub fn shared(&self) -> Result<Snapshot, AllocError>
        ensures { IfOk result (λ snapshot. snapshot ≡ self.now) }
    {
        let alloc = *self.pages.allocator();
        Ok(Snapshot::from_pages(shared_pages(alloc, &self.pages)?))
    }

    /// The memory as it is now. It copies the pages that were put to since the last snapshot, and shares the others with it.
    pub fn snapshot(&mut self) -> Result<Snapshot, AllocError>
        ensures ok { IfOk result (λ snapshot. snapshot ≡ self.old) }
        ensures unchanged { self.new ≡ self.old }
    {
        let alloc = *self.pages.allocator();
        let shared = shared_pages(alloc, &self.pages)?;
        let renewals = renewals(alloc, &self.pages, &shared)?;
        keep(&mut self.pages, renewals);
        Ok(Snapshot::from_pages(shared))
    }
}
