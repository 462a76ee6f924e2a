//! What came to a sphere from outside, as a log keeps it: interrupts, inputs and the data of DMAs.
#![tactic(auto)]

mod copied;
mod dmas;
mod inputs;
mod interrupts;

pub use dl_entry::{Input, OutOfMemory, Sequence};
pub use dmas::Dmas;
pub use inputs::Inputs;
pub use interrupts::{Interrupts, Raised};
pub use spec_log::{DmaRecord, Interrupt};
