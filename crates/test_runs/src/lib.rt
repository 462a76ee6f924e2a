//! Worked runs: what the program's one call reads, answers, says and writes, byte for byte, over files and sinks in memory, and
//! once over the real ones. There are only tests here, so that they cost no second proof of the crates that they try.
#![tactic(auto)]

#[cfg(test)]
mod tests;
