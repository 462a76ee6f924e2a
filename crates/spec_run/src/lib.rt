//! The outcome of a run of the whole machine: the texts of its spheres, its console, its report and its summary, and the
//! promises that the machine holds what they tell.
#![tactic(auto)]

mod promise;

pub use promise::{
    accounts_agree, intervals_are_slices, recordings_are_reproduced, runs_are_described,
    schedules_leave_room, spheres_are_described, tails_are_played, tails_are_tails,
    texts_are_of_points,
};
