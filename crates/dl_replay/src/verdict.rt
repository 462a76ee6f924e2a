//! What a chunk is answered.
use dl_entry::Why;

/// The commit went as it is logged, or the replay leaves its log.
#[derive(Clone, Copy, Debug, PartialEq, Eq)]
pub enum Verdict {
    Went,
    Diverged(Why),
}
