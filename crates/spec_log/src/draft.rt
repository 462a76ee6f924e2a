//! A log of which a part was read.
use crate::mode_name::ModeName;
use crate::records::{DmaRecord, Interrupt, Order};
use crate::shape::Shape;
use crate::sizes::ShortSize;
use dl_entry::{Input, Sequence};

/// What was read of a log so far. Either each commit has a size or each short chunk has: by the mode, one of the two
/// lists stays empty.
#[derive(Debug, Drop)]
pub struct Draft {
    pub shape: Shape,
    pub mode: ModeName,
    pub count: u32,
    pub order: Order,
    pub each: Sequence<u32>,
    pub short: Sequence<ShortSize>,
    pub interrupts: Sequence<Interrupt>,
    pub inputs: Sequence<Input>,
    pub dmas: Sequence<DmaRecord>,
}
