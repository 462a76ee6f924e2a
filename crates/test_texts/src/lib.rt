//! Worked texts and files: sources and generated programs with their images, plans, the words of a command line, logs at once,
//! in pieces and as text, accounts, reports and summaries. There are only tests here, so that they cost no second proof of
//! the crates that they try.
#![tactic(auto)]

#[cfg(test)]
mod tests;
