//! Why a file or a sink refused a call.
use std::alloc::AllocError;
use thiserror::Error;

/// Why a call of `Files` was refused. Only `read` and `read_at` answer `Absent`.
#[derive(Clone, Copy, Debug, PartialEq, Eq, Error)]
pub enum FileError {
    /// The call failed, and the count of faults rose.
    #[error("the file could not be read or written")]
    Failed,
    /// There is no file of that name.
    #[error("there is no such file")]
    Absent,
    /// Memory ran out, and the files are as before.
    #[error("out of memory")]
    OutOfMemory,
}

/// Why a call of `Sink` was refused.
#[derive(Clone, Copy, Debug, PartialEq, Eq, Error)]
pub enum SinkError {
    /// Nothing was taken, and the count of faults rose.
    #[error("the output could not be written")]
    Failed,
    /// Memory ran out, and nothing was taken.
    #[error("out of memory")]
    OutOfMemory,
}

impl From<AllocError> for FileError {
    ghost use Rattle.std.specs.Prelude.{◌≡◌};
    ghost use Rattle.dl_files.specs.declared.error.FileError.TheVariants.{OutOfMemory};

    ghost from_gives = { λ _ error. error ≡ OutOfMemory };

    fn from(_error: AllocError) -> FileError {
        FileError::OutOfMemory
    }
}

impl From<AllocError> for SinkError {
    ghost use Rattle.std.specs.Prelude.{◌≡◌};
    ghost use Rattle.dl_files.specs.declared.error.SinkError.TheVariants.{OutOfMemory};

    ghost from_gives = { λ _ error. error ≡ OutOfMemory };

    fn from(_error: AllocError) -> SinkError {
        SinkError::OutOfMemory
    }
}
