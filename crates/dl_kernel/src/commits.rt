//! Commits as accounts tell them.
ghost use Rattle.std.specs.Prelude.{◌≡◌, map};
ghost use Rattle.spec_isa.specs.Runs.{Run};
ghost use Rattle.spec_play.specs.Effects.{chunk_commit, serial_commit, dma_commit, entry_of};

use dl_entry::{Actor, Commit, CommitKind, Loads, Outputs};
use std::alloc::Global;

/// The commit of a thread's chunk of so many instructions.
pub fn chunk_commit(alloc: Global, thread: u8, size: u32, loads: Loads) -> Commit
    ensures { (r : Run) → size ≡ r.n → loads ≡ map entry_of r.loads → result ≡ chunk_commit thread r }
{
    Commit {
        actor: Actor::Thread(thread),
        kind: CommitKind::Chunk,
        size,
        loads,
        outputs: Outputs::new(alloc),
    }
}

/// The commit of a thread's serial step.
pub fn serial_commit(thread: u8, loads: Loads, outputs: Outputs) -> Commit
    ensures { result ≡ serial_commit thread loads outputs }
{
    Commit {
        actor: Actor::Thread(thread),
        kind: CommitKind::Serial,
        size: 0,
        loads,
        outputs,
    }
}

/// A DMA, which has no size.
pub fn dma_commit(alloc: Global) -> Commit
    ensures { result ≡ dma_commit }
{
    Commit {
        actor: Actor::Dma,
        kind: CommitKind::Dma,
        size: 0,
        loads: Loads::new(alloc),
        outputs: Outputs::new(alloc),
    }
}
