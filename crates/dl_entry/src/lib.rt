//! The plain data of recordings and replays: who commits what, what came from outside, and how a sphere ends.
#![tactic(auto)]

mod actor;
mod commit;
mod counts;
mod end;
mod input;
mod numbers;
mod out_of_memory;
mod point;
mod reply_name;
mod sequence;

pub use actor::Actor;
pub use commit::{Commit, CommitKind, Load, Loads, Output, Outputs};
pub use counts::Counts;
pub use end::{End, SphereLine, Why};
pub use input::{Input, Request};
pub use numbers::{
    DMA_CODE, DMA_HALF, KIND_CLOCK, KIND_INPUT, KIND_MOMENT, KIND_RANDOM, KIND_READ, KIND_WRITE,
    LEAST_CHUNK, MOST_BYTES, MOST_CHUNK, MOST_CHUNK_V1, MOST_THREADS, PLAIN_THREADS,
};
pub use out_of_memory::OutOfMemory;
pub use point::Point;
pub use reply_name::ReplyName;
pub use sequence::{Bytes, Sequence};
