//! The play of a log as definitions: its commits done whole, one at a time, on plain memory, in any of the three modes;
//! the eight reasons for which a play leaves its log; and when a log fits an image.
#![tactic(auto)]

mod interval;
mod promise;
mod used;
mod walk_end;

pub use interval::Interval;
pub use promise::{
    intervals_are_within, migration_keeps_plays, plays_go_on, plays_keep_lasts, plays_resume,
    recorders_keep_logs, states_are_bounded, walks_are_plays,
};
pub use used::Used;
pub use walk_end::WalkEnd;
