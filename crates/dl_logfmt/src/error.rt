//! Why bytes are no log.
ghost use Rattle.std.specs.Prelude.{◌≡◌};
ghost use Rattle.dl_logfmt.specs.declared.error.LogError.TheVariants.{OutOfMemory as NoMemory};

use dl_entry::OutOfMemory;
use spec_log::Fault;
use thiserror::Error;

/// Why there is no log.
#[derive(Clone, Copy, Debug, PartialEq, Eq, Error)]
pub enum LogError {
    /// The bytes are no log, by their first fault.
    #[error("log refused by {} at {}", .0.number, .0.offset)]
    Malformed(Fault),
    /// Memory ran out.
    #[error("out of memory")]
    OutOfMemory,
}

impl From<OutOfMemory> for LogError {
    ghost from_gives = { λ _ error. error ≡ NoMemory };

    fn from(_: OutOfMemory) -> LogError {
        LogError::OutOfMemory
    }
}
