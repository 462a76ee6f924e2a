//! The kernel: what a thread's serial step does by itself, what it wants from outside and is answered, and whether a record
//! of a log is such an answer.
#![tactic(auto)]

mod answering;
mod by_thread;
mod calls;
mod commits;
mod copying;
mod in_order;
mod inside;
mod need;
mod outside;
mod past;
mod peek;
mod record;
mod results;
mod serving;
mod state;
mod threads;

pub use commits::{chunk_commit, dma_commit, serial_commit};
pub use copying::{copied, dma_words};
pub use dl_dev::Devices;
pub use dl_entry::{Input, OutOfMemory, Request};
pub use dl_mem::{Memory, Snapshot};
pub use dl_thread::{Thread, Threads};
pub use in_order::InOrder;
pub use inside::sphere_call;
pub use outside::{outside_call, outside_record, outside_take};
pub use past::Past;
pub use record::{Injected, inject, wants_record};
pub use serving::{Step, StepResult, serve};
pub use state::State;
pub use threads::{
    counted, interrupted, is_live, live_of, lives, settle, takes_interrupt, thread_at,
};
