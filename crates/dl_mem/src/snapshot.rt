//! A memory as it was at one moment.
ghost use Rattle.std.specs.Prelude.{◌≡◌, ◌+◌, ◌/◌, ◌%◌, ◌≤◌, length, OnErr, OnOk};
ghost use Rattle.std.specs.List.{concat};
ghost use Rattle.spec_isa.specs.Words.{lay, read};
ghost use Rattle.spec_isa.specs.Masks.{bytes_of};
ghost use Rattle.dl_mem.specs.Memories.{IsMemory, IsPaged};

use crate::page::{PAGE, word_at};
use crate::shared::Shared;
use std::alloc::{AllocError, Global};
use std::marker::Model;

/// The bytes of a memory at the moment of `Memory::snapshot`, whatever is put to it later. Snapshots share the pages that
/// were not put to between them.
#[derive(Debug, Drop)]
pub struct Snapshot {
    pages: Vec<Shared>,
}

impl Model for Snapshot {
    ghost use Rattle.std.specs.Prelude.{ℕ, List};
    ghost use Rattle.std.specs.List.{concat};
    ghost use Rattle.dl_mem.specs.Memories.{IsPaged};

    ghost Value = { List ℕ };

    ghost view = { λ s. concat s.pages.items };

    ghost invariant = { λ s. IsPaged s.pages.items };
}

impl Snapshot {
    pub(crate) fn from_pages(pages: Vec<Shared>) -> Snapshot
        requires { IsPaged pages.items }
        ensures { result ≡ concat pages.items }
    {
        Snapshot { pages }
    }

    pub(crate) fn pages(&self) -> &[Shared]
        ensures value { concat result.now ≡ self.now }
        ensures paged { IsPaged result.now }
    {
        &self.pages
    }

    /// The word at an address inside.
    pub fn word(&self, addr: u32) -> u32
        requires aligned { addr % 4 ≡ 0 }
        requires inside { addr + 4 ≤ length self.now }
        ensures value { result ≡ read self.now (addr / 4) }
        ensures memory { IsMemory self.now }
    {
        let at = addr as usize;
        word_at(self.pages[at / PAGE].bytes(), at % PAGE)
    }

    /// Writes those bytes of the value whose bits are set in the mask into the word at an address inside. What else shares
    /// the page shows it as it was.
    pub fn put(&mut self, alloc: Global, addr: u32, mask: u8, value: u32) -> Result<(), AllocError>
        requires aligned { addr % 4 ≡ 0 }
        requires inside { addr + 4 ≤ length self.old }
        ensures laid { OnOk result (self.new ≡ lay self.old (bytes_of (addr / 4) mask value)) }
        ensures refused { OnErr result (self.new ≡ self.old) }
        ensures before { IsMemory self.old }
        ensures after { IsMemory self.new }
    {
        let at = addr as usize;
        let page = self.pages[at / PAGE].with_word(alloc, at % PAGE, mask, value)?;
        self.pages[at / PAGE] = page;
        Ok(())
    }
}
