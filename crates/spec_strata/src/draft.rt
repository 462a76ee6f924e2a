//! Strata of which a part was read.
use crate::stratum::Stratum;
use dl_entry::{Input, Sequence};
use spec_log::{DmaRecord, Interrupt, ShortSize};

/// What was read of strata so far; `commits` is how many commits the runs have together.
#[derive(Debug, Drop)]
pub struct StrataDraft {
    pub counted: u8,
    pub threads: u8,
    pub s: u32,
    pub strata: Sequence<Stratum>,
    pub commits: u32,
    pub sizes: Sequence<ShortSize>,
    pub interrupts: Sequence<Interrupt>,
    pub inputs: Sequence<Input>,
    pub dmas: Sequence<DmaRecord>,
}
