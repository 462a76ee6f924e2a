//! Strata: as bytes, cut from a log, and checked on an image.
#![tactic(auto)]

mod canonical;
mod checker;
mod checking;
mod counts;
mod cutter;
mod error;
mod header;
mod kinds;
mod law;
mod reading;
mod runs;
mod sections;
mod sizes;
mod stratifying;
mod touches;
mod writing;

pub use canonical::canonical_log;
pub use checking::{CheckError, check_strata};
pub use dl_elf::Image;
pub use dl_entry::{OutOfMemory, Why};
pub use error::StrataError;
pub use law::reading_undoes_writing;
pub use reading::read_strata;
pub use spec_log::Log;
pub use spec_strata::{Strata, StrataParts, Stratum};
pub use stratifying::{Stratified, stratify};
pub use writing::write_strata;
