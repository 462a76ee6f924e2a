//! What the program does with its words and its files, as definitions: the outcome of a command where no call fails, and
//! what each status says where one does.
#![tactic(auto)]

mod promise;
pub mod status;

pub use promise::{
    accounts_agree, drills_are_reproduced, intervals_are_told, recordings_are_replayed,
    tails_are_walked, tasks_are_run,
};
