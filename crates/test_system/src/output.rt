//! An output in memory.
ghost use Rattle.std.specs.Prelude.{◌≡◌};
ghost use Rattle.dl_files.specs.Count.{next};

use crate::Trouble;
use crate::troubles::Troubles;
use dl_files::Output;
use std::alloc::{AllocError, Global};
use std::io;
use std::io::ErrorKind;

/// An output that tells what it took. Calls are numbered from 0, and those that are planned go wrong.
#[derive(Drop)]
pub struct TestOutput {
    taken: Vec<u8>,
    troubles: Troubles,
    // How many bytes a call takes at most.
    piece: usize,
    refusals: u64,
}

impl TestOutput {
    /// An output that has taken nothing; nothing goes wrong, and no call is short.
    pub fn new(alloc: Global) -> Self {
        Self {
            taken: Vec::new(alloc),
            troubles: Troubles::new(alloc),
            piece: usize::MAX,
            refusals: 0,
        }
    }

    /// The call with this number goes wrong.
    pub fn plan(&mut self, call: u64, trouble: Trouble) -> Result<(), AllocError> {
        self.troubles.plan(call, trouble)
    }

    /// From now on a call takes at most that many bytes, or one if that is 0.
    pub fn set_piece(&mut self, piece: usize) {
        self.piece = piece;
    }

    // A call that is refused for this reason.
    fn refuse(&mut self, kind: ErrorKind) -> io::Error
        ensures { self.new ≡ record self.old { refusals = next self.old.refusals } }
    {
        self.refusals = self.refusals.saturating_add(1);
        io::Error::from(kind)
    }
}

impl Output for TestOutput {
    ghost use Rattle.std.specs.Prelude.{Some};

    ghost holds = { λ output. Some output.taken.items };

    ghost refusals = { λ output. output.refusals };

    fn write(&mut self, bytes: &[u8]) -> io::Result<usize> {
        if let Some(trouble) = self.troubles.meet() {
            return Err(self.refuse(trouble.kind()));
        }
        let count = bytes.len().min(self.piece.max(1));
        match self.taken.extend_from_slice(&bytes[..count]) {
            Ok(()) => Ok(count),
            Err(_) => Err(self.refuse(ErrorKind::OutOfMemory)),
        }
    }
}
