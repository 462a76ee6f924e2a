//! Scripts in files: they are read in pieces, so that besides the events no more than a piece of a file is in memory.
#![tactic(auto)]

mod reading;

pub use reading::{ScriptRead, read_script_file};

/// How many bytes of a file are read at a time.
pub const PIECE: usize = 1 << 15;
