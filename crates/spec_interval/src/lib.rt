//! Slices of a log as definitions: the text of the commits of its play between two numbers.
#![tactic(auto)]

mod promise;

pub use promise::{slices_are_accounts, slices_join, slices_resume, slices_stop_at_count};
