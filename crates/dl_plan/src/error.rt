//! Why a plan was not read.
ghost use Rattle.std.specs.Prelude.{◌≡◌};
ghost use Rattle.dl_plan.specs.declared.error.PlanError.TheVariants.{OutOfMemory};

use std::alloc::AllocError;
use thiserror::Error;

/// Why a plan was not read.
#[derive(Clone, Copy, Debug, PartialEq, Eq, Error)]
pub enum PlanError {
    /// It is no plan, with the number of the first rule that the whole of it breaks, from 1 to 10.
    #[error("the plan breaks rule {0}")]
    Refused(u8),
    #[error("out of memory")]
    OutOfMemory,
}

impl From<AllocError> for PlanError {
    ghost from_gives = { λ _ e. e ≡ OutOfMemory };

    fn from(_error: AllocError) -> PlanError {
        PlanError::OutOfMemory
    }
}
