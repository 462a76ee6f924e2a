//! Worked parts: words and instructions, images and memories, write buffers, signatures, flights, chunks and requests, devices,
//! schedules, plain data, and files and sinks. There are only tests here, so that they cost no second proof of the crates
//! that they try.
#![tactic(auto)]

#[cfg(test)]
mod tests;
