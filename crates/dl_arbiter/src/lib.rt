//! Which flight stops a request for a commit: the one in the lowest slot that hits it, or none.
#![tactic(auto)]

pub mod arbiter;

pub use arbiter::{ask, ask_serial};
pub use dl_fly::Flights;
pub use dl_sig::Sig;
pub use spec_engine::answers::{Asked, AskedSerial};
