//! The devices that all spheres share: callers see them as what is left of the input, the console, eight pipes and the
//! state of the random words.
#![tactic(auto)]

mod devices;
mod pipe;
mod random;

pub use devices::Devices;
