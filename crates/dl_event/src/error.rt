//! Why a text isn't a script.
use std::alloc::AllocError;
use thiserror::Error;

/// Why there are no events.
#[derive(Clone, Copy, Debug, PartialEq, Eq, Error)]
pub enum ScriptError {
    /// The line of that number, counted from 1, isn't a line of a script, or holds the event after the 2^24th.
    #[error("line {0} is refused")]
    Refused(u64),
    /// Memory ran out.
    #[error("out of memory")]
    OutOfMemory,
}

impl From<AllocError> for ScriptError {
    ghost use Rattle.std.specs.Prelude.{◌≡◌};
    ghost use Rattle.dl_event.specs.declared.error.ScriptError.TheVariants.{OutOfMemory};

    ghost from_gives = { λ _ error. error ≡ OutOfMemory };

    fn from(_failed: AllocError) -> ScriptError {
        ScriptError::OutOfMemory
    }
}
