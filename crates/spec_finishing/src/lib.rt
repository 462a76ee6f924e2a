//! That finishing ends: after any schedule, flights are made visible and replays come to their ends, within a bound.
#![tactic(auto)]

mod promise;

pub use promise::{
    finishing_ends, finishing_is_a_function, replays_are_finished, runs_are_short,
    setups_can_finish, strata_are_completed,
};
