//! What a log keeps of the order and the sizes of commits, in each of three modes.
#![tactic(auto)]

mod lists;
mod mode;
mod order_only;
mod order_size;
mod picolog;
mod thread_sizes;

pub use dl_entry::{Actor, Commit, OutOfMemory};
pub use lists::Lists;
pub use mode::{Mode, Noting, is_head, limit_of};
pub use order_only::{OrderOnly, OrderOnlyLog};
pub use order_size::{OrderAndSize, OrderSizeLog};
pub use picolog::{PicoLog, TurnLog, turn};
pub use spec_log::{ModeName, Order, Sizes};
pub use thread_sizes::ThreadSizes;
