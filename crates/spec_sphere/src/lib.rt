//! One sphere as definitions: its role, what a commit, a DMA and an interrupt do to it, what is logged of them, where it
//! starts, and what is sound of it. No core, no flight and no event is named here.
#![tactic(auto)]

mod promise;

pub use promise::{logs_are_seen_alike, plain_moves_as_recorded};
