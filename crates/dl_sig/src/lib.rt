//! Signatures of lines, as words of bits and as plain flags: callers see a size and the places set in two banks.
#![tactic(auto)]

mod bank;
pub mod banked;
mod flags;
mod place;
pub mod plain_set;
pub mod sig;
mod words;

pub use banked::Banked;
pub use plain_set::PlainSet;
pub use sig::Sig;
