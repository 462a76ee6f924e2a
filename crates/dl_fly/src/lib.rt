//! Commits whose stores are still being made visible: callers see the slots, each free or with its flight.
#![tactic(auto)]

pub mod flight;
pub mod flights;
mod slot;

pub use dl_mem::Memory;
pub use dl_sig::Sig;
pub use dl_wbuf::Buffer;
pub use flight::Flight;
pub use flights::Flights;
pub use spec_engine::answers::{Deliver, Drain, Retire};
