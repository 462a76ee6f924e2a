//! The chunks that a core runs, one or two: callers see them as records of the definition, and each step as the definition's step
//! over the memory and the flights that are handed in.
#![tactic(auto)]

mod base;
pub mod chunk;
mod lines;
pub mod pair;
mod store;
mod view;

pub use chunk::Chunk;
pub use dl_fly::Flights;
pub use dl_mem::Memory;
pub use dl_sig::Sig;
pub use dl_thread::{Load, Thread};
pub use dl_wbuf::Buffer;
pub use pair::{Pair, Which};
pub use spec_engine::answers::{CutReply, How, Stepped};
