//! What a walk leaves.
use dl_entry::{Commit, Sequence};
use dl_kernel::State;
use spec_play::WalkEnd;
use spec_query::Store;

/// Commits, the first one first.
pub type Commits = Sequence<Commit>;

/// The words that commits stored to, with the values that these left there, commit after commit.
pub type Stores = Sequence<Store>;

/// The commits of a walk and their stores, the state after the last one, and how the walk ended.
#[derive(Drop)]
pub struct Walked {
    pub commits: Commits,
    pub stores: Stores,
    pub state: State,
    pub end: WalkEnd,
}
