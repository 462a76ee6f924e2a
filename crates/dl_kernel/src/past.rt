//! What a sphere has done.
use crate::in_order::InOrder;
use crate::state::State;
use std::alloc::Global;

/// The whole commits that a sphere has done, in the order of its account, and the state now. `first` is the number of the
/// first of them in its play. A replay that has done a part of its next commit has its thread moved on by it. Commits take
/// their memory of `alloc`.
#[derive(Drop)]
pub struct Past {
    pub alloc: Global,
    pub first: u32,
    pub commits: InOrder,
    pub state: State,
}
