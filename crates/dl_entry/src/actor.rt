//! Who commits.
ghost use Rattle.std.specs.Prelude.{◌≡◌};
ghost use Rattle.dl_entry.specs.Actor.{code};

use crate::numbers::DMA_CODE;

/// Who commits: a thread by its number, or a sphere's DMA.
#[derive(Clone, Copy, Debug, PartialEq, Eq)]
pub enum Actor {
    Thread(u8),
    Dma,
}

impl Actor {
    /// The actor as texts write it: a thread's number, or 63 for a DMA.
    pub fn code(self) -> u8
        ensures { result ≡ code self }
    {
        match self {
            Actor::Thread(number) => number,
            Actor::Dma => DMA_CODE,
        }
    }
}
