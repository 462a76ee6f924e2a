//! Worked spheres and what they are made of: calls of the kernel, what logs keep, recordings, replays, spheres in each of their
//! roles, and logs walked without a machine, or cut into strata. There are only tests here, so that they cost no second proof
//! of the crates that they try.
#![tactic(auto)]

#[cfg(test)]
mod tests;
