//! The units of a log after its header.
ghost use Rattle.std.specs.Prelude.{◌≡◌, ◌++◌};
ghost use Rattle.spec_log.specs.Bytes.{order_bytes, sizes_bytes, section, interrupt_bytes, input_bytes, dma_bytes};
ghost use Rattle.spec_log.specs.Log.{IsLog};
ghost use Rattle.dl_logfmt.specs.Writing.{IsNextUnit};

use crate::order_left::OrderLeft;
use crate::section_left::SectionLeft;
use crate::unit::Unit;
use dl_entry::Input;
use spec_log::{DmaRecord, Interrupt, LogParts, ShortSize, Sizes};
use std::marker::Model;

/// What is left of each section, seen as their bytes. One of the two forms of sizes is empty.
#[derive(Drop)]
pub struct Units<'a> {
    order: OrderLeft<'a>,
    each: SectionLeft<'a, u32>,
    short: SectionLeft<'a, ShortSize>,
    interrupts: SectionLeft<'a, Interrupt>,
    inputs: SectionLeft<'a, Input>,
    dmas: SectionLeft<'a, DmaRecord>,
}

impl<'a> Model for Units<'a> {
    ghost use Rattle.std.specs.Prelude.{ℕ, List, ◌++◌};

    ghost Value = { List ℕ };

    ghost view = { λ u. u.order ++ u.each ++ u.short ++ u.interrupts ++ u.inputs ++ u.dmas };
}

impl<'a> Units<'a> {
    pub fn new(parts: &'a LogParts) -> Units<'a>
        requires { IsLog parts.now }
        ensures { result ≡ order_bytes parts.now.version parts.now.order ++ sizes_bytes parts.now.version parts.now.sizes
            ++ section interrupt_bytes parts.now.interrupts ++ section input_bytes parts.now.inputs
            ++ section dma_bytes parts.now.dmas }
    {
        let version = parts.version;
        let (each, short) = sizes(parts);
        Units {
            order: OrderLeft::new(version, parts.order.as_slice()),
            each,
            short,
            interrupts: SectionLeft::new(version, parts.interrupts.as_slice()),
            inputs: SectionLeft::new(version, parts.inputs.as_slice()),
            dmas: SectionLeft::new(version, parts.dmas.as_slice()),
        }
    }

    /// The next unit, unless nothing is left.
    pub fn begin(&mut self) -> Option<Unit<'a>>
        ensures { IsNextUnit self.old result self.new }
    {
        if let Some(unit) = self.order.begin() {
            return Some(unit);
        }
        if let Some(unit) = self.each.begin() {
            return Some(unit);
        }
        if let Some(unit) = self.short.begin() {
            return Some(unit);
        }
        if let Some(unit) = self.interrupts.begin() {
            return Some(unit);
        }
        if let Some(unit) = self.inputs.begin() {
            return Some(unit);
        }
        self.dmas.begin()
    }
}

fn sizes<'a>(parts: &'a LogParts) -> (SectionLeft<'a, u32>, SectionLeft<'a, ShortSize>)
    requires { IsLog parts.now }
    ensures { sizes_bytes parts.now.version parts.now.sizes ≡ result.0 ++ result.1 }
{
    let version = parts.version;
    match &parts.sizes {
        Sizes::Each(sizes) => (
            SectionLeft::new(version, sizes.as_slice()),
            SectionLeft::none(),
        ),
        Sizes::Short(sizes) => (
            SectionLeft::none(),
            SectionLeft::new(version, sizes.as_slice()),
        ),
    }
}
