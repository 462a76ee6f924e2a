//! Why bytes are no tail.
ghost use Rattle.std.specs.Prelude.{◌≡◌};
ghost use Rattle.dl_tail.specs.Answer.{error_of};
ghost use Rattle.dl_tail.specs.declared.error.TailError.TheVariants.{OutOfMemory as NoMemory};

use dl_entry::OutOfMemory;
use dl_logfmt::{Fault, LogError};
use thiserror::Error;

/// Why there is no tail.
#[derive(Clone, Copy, Debug, PartialEq, Eq, Error)]
pub enum TailError {
    /// The bytes are no tail, by their first fault.
    #[error("tail refused by {} at {}", .0.number, .0.offset)]
    Malformed(Fault),
    /// Memory ran out.
    #[error("out of memory")]
    OutOfMemory,
}

impl From<OutOfMemory> for TailError {
    ghost from_gives = { λ _ error. error ≡ NoMemory };

    fn from(_: OutOfMemory) -> TailError {
        TailError::OutOfMemory
    }
}

/// The readers of a log's fields say why in its words.
impl From<LogError> for TailError {
    ghost from_gives = { λ from error. error ≡ error_of from };

    fn from(error: LogError) -> TailError {
        match error {
            LogError::Malformed(fault) => TailError::Malformed(fault),
            LogError::OutOfMemory => TailError::OutOfMemory,
        }
    }
}
