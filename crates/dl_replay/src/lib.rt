//! Replaying: what a log, in any mode, makes of the requests of its sphere, one commit after another; also in strata, whose
//! commits may come in another order.
#![tactic(auto)]

mod copying;
mod counting;
mod done;
mod judging;
mod lookup;
mod ready;
mod replayer;
mod standing;
mod strata_mode;
mod turn_or_end;
mod turning;
mod verdict;

pub use dl_entry::{Actor, End, OutOfMemory, Why};
pub use dl_kernel::{State, StepResult};
pub use dl_mode::{Mode, Noting};
pub use dl_thread::Thread;
pub use dl_wbuf::Buffer;
pub use ready::ReadyStrata;
pub use replayer::Replayer;
pub use spec_log::Log;
pub use spec_play::Interval;
pub use spec_strata::Strata;
pub use strata_mode::{StrataLog, StrataMode};
pub use verdict::Verdict;
