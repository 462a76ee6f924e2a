//! Logs in files: they are read and written in pieces, so that no more of a file than a piece stands in memory beside the log.
#![tactic(auto)]

mod length;
mod reading;
mod writing;

pub use length::log_length;
pub use reading::{LogRead, read_log_file};
pub use writing::write_log_file;

/// How many bytes of a file are read or written at a time.
pub const PIECE: usize = 4096;
