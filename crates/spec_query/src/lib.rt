//! What the commits of a play store, as definitions: of each commit the words that it stored to; and the answers to
//! questions about one word.
#![tactic(auto)]

mod line;
mod promise;
mod store;
mod when;

pub use line::Line;
pub use promise::{no_change_is_always, stores_are_told};
pub use store::Store;
pub use when::When;
