//! The kernel and its devices as definitions: what a serial step needs from outside, what it is answered, and what it
//! does; the words that a kernel copy and a DMA store; and how a thread takes an interrupt.
#![tactic(auto)]

pub mod numbers;
