//! What the words of a chunk lie over: a sphere's memory, or for a younger chunk that memory with the older one's words over it.
ghost use Rattle.std.specs.Prelude.{◌≡◌, ◌+◌, ◌/◌, ◌%◌, ◌≤◌, ℕ, List, length};
ghost use Rattle.spec_isa.specs.Words.{IsBytes, lays, read};

use crate::chunk::Chunk;
use dl_mem::Memory;
use dl_sig::Sig;

// Bytes of which a chunk reads those that it hasn't stored.
pub(crate) trait Base {
    ghost bytes: { Self → List ℕ };

    // How many there are.
    fn size(&self) -> u32
        ensures { result ≡ length (bytes self.now) };

    // The word at an address inside.
    fn word(&self, addr: u32) -> u32
        requires aligned { addr % 4 ≡ 0 }
        requires inside { addr + 4 ≤ length (bytes self.now) }
        ensures value { result ≡ read (bytes self.now) (addr / 4) }
        ensures bytes { IsBytes (bytes self.now) };
}

impl Base for Memory {
    ghost bytes = { λ m. m };

    fn size(&self) -> u32 {
        self.size()
    }

    #[inline(always)]
    fn word(&self, addr: u32) -> u32 {
        self.word(addr)
    }
}

// A memory with the words of an older chunk laid over it.
#[derive(Drop)]
pub(crate) struct Laid<'a, G: Sig> {
    pub(crate) memory: &'a Memory,
    pub(crate) older: &'a Chunk<G>,
}

impl<'a, G: Sig> Base for Laid<'a, G> {
    ghost bytes = { λ l. lays l.memory.now l.older.now.chunk.done.words };

    #[tactic(auto, using(spec_isa::proofs::MemoryLaws::length_lays))]
    fn size(&self) -> u32 {
        self.memory.size()
    }

    #[inline(always)]
    fn word(&self, addr: u32) -> u32 {
        self.older.over(addr, self.memory.word(addr))
    }
}
