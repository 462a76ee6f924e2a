//! Worked machines: what each event answers, what the spheres and the console then hold, and which events finish them.
//! There are only tests here, so that they cost no second proof of the crates that they try.
#![tactic(auto)]

#[cfg(test)]
mod tests;
