//! The lists of a log that depend on its mode.
use spec_log::{ModeName, Order, Sizes};

/// A log without its records: its mode, its standard chunk size, its number of commits, their order and their sizes.
#[derive(Debug, Drop)]
pub struct Lists {
    pub mode: ModeName,
    pub s: u32,
    pub count: u32,
    pub order: Order,
    pub sizes: Sizes,
}
