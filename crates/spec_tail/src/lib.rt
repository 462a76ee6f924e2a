//! Tails as definitions: the last part of a recording, with the state in which it begins; the bytes of a tail's file; what of
//! other bytes is the first field that isn't good; and the play of a tail.
#![tactic(auto)]

mod draft;
mod promise;

pub use draft::{Row, TailDraft, TailHeader};
pub use promise::{tails_are_direct, tails_play_on, whole_tails_play_logs};
