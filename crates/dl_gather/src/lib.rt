//! What a command reads: its plan, the files that the plan or its words name, and what they say, up to the setup of a machine; or
//! why the command halts.
#![tactic(auto)]

mod events;
mod gathering;
mod halt;
mod images;
mod inputs;
mod intervals;
mod lines;
mod logs;
mod planning;
mod playbacks;
mod reading;
mod setups;
mod strata;
mod tails;
mod task;

pub use halt::Halt;
pub use inputs::PlaybackRead;
pub use lines::{
    absent_line, assembled_line, fault_line, made_line, migrated_line, source_line, strata_line,
    usage_line,
};
pub use logs::read_good_log;
pub use planning::load_plan;
pub use playbacks::read_playback;
pub use reading::read_file;
pub use tails::read_good_tail;
pub use task::{Task, load_task};
