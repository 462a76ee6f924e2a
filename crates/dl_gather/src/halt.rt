//! Why a command stops before its end.
use dl_entry::OutOfMemory;
use spec_program::status::Refusal;
use std::alloc::AllocError;

/// Why a command stops, and the line that says so.
#[derive(Drop)]
pub enum Halt {
    /// It is refused.
    Refused(Refusal, Vec<u8>),
    /// A file failed.
    Fault(Vec<u8>),
    /// Memory ran out.
    OutOfMemory,
}

impl From<AllocError> for Halt {
    ghost use Rattle.std.specs.Prelude.{◌≡◌};
    ghost use Rattle.dl_gather.specs.declared.halt.Halt.TheVariants.{OutOfMemory};

    ghost from_gives = { λ _ halt. halt ≡ OutOfMemory };

    fn from(_error: AllocError) -> Halt {
        Halt::OutOfMemory
    }
}

impl From<OutOfMemory> for Halt {
    ghost use Rattle.std.specs.Prelude.{◌≡◌};
    ghost use Rattle.dl_gather.specs.declared.halt.Halt.TheVariants.{OutOfMemory};

    ghost from_gives = { λ _ halt. halt ≡ OutOfMemory };

    fn from(_error: OutOfMemory) -> Halt {
        Halt::OutOfMemory
    }
}
