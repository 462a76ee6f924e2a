//! A memory that is only looked at.
use dl_mem::Memory;
use dl_thread::{Full, View};

// A view that has room for no store.
#[derive(Drop)]
pub(crate) struct Peek<'a> {
    pub(crate) memory: &'a Memory,
}

impl View for Peek<'_> {
    ghost use Rattle.dl_kernel.specs.Peeks.{peek_sight, ReadBy, WrittenBy};

    ghost sight = { peek_sight };

    ghost Read = { ReadBy };

    ghost Wrote = { WrittenBy };

    fn size(&self) -> u32 {
        self.memory.size()
    }

    fn fetch(&mut self, addr: u32) -> Result<u32, u8> {
        Ok(self.memory.word(addr))
    }

    fn load(&mut self, word: u32) -> Result<u32, u8> {
        Ok(self.memory.word(word))
    }

    fn store(&mut self, _word: u32, _mask: u8, _value: u32) -> Result<(), Full> {
        Err(Full)
    }
}
