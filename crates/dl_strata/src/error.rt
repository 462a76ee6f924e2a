//! Why bytes aren't strata.
ghost use Rattle.std.specs.Prelude.{◌≡◌};
ghost use Rattle.dl_strata.specs.Answer.{error_of};

use dl_logfmt::LogError;
use spec_log::Fault;
use thiserror::Error;

/// Why there are no strata.
#[derive(Clone, Copy, Debug, PartialEq, Eq, Error)]
pub enum StrataError {
    /// The bytes aren't strata, by their first fault.
    #[error("strata refused by {} at {}", .0.number, .0.offset)]
    Malformed(Fault),
    /// Memory ran out.
    #[error("out of memory")]
    OutOfMemory,
}

/// The readers of a log's fields say why in its words.
impl From<LogError> for StrataError {
    ghost from_gives = { λ from error. error ≡ error_of from };

    fn from(error: LogError) -> StrataError {
        match error {
            LogError::Malformed(fault) => StrataError::Malformed(fault),
            LogError::OutOfMemory => StrataError::OutOfMemory,
        }
    }
}
