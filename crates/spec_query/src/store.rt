//! A word that a commit stored to.
use dl_entry::Actor;

/// A commit by its number in the log, counted from 0, its actor, the address of a word that it stored to, a multiple of 4,
/// and the value that it left there. However often a commit stores to a word, it is one store.
#[derive(Clone, Copy, Debug, PartialEq, Eq)]
pub struct Store {
    pub commit: u32,
    pub actor: Actor,
    pub address: u32,
    pub value: u32,
}
