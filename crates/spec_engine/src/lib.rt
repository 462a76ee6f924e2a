//! The engine below the machine as definitions: signatures of lines, flights in their slots, the chunk of one core and its
//! step, and which flight stops a request; with the plain answers that these use.
#![tactic(auto)]

pub mod answers;
mod laws;

pub use laws::{
    chunks_are_covered, cores_are_told, finds_the_least, signatures_cover, signatures_hit,
    steps_are_instructions,
};
