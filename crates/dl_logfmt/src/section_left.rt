//! What is left of a section.
ghost use Rattle.std.specs.Prelude.{◌≡◌, ◌<◌, ◌^◌, [], length, All};
ghost use Rattle.spec_log.specs.Bytes.{section};
ghost use Rattle.dl_logfmt.specs.Writing.{IsNextUnit};

use crate::entry::Entry;
use crate::unit::Unit;
use std::marker::Model;

/// The entries that are not begun, and whether their count is, in a log of this version; seen as the bytes that are left.
#[derive(Drop)]
pub struct SectionLeft<'a, E: Entry> {
    version: u8,
    begun: bool,
    entries: &'a [E],
}

impl<'a, E: Entry> Model for SectionLeft<'a, E> {
    ghost use Rattle.std.specs.Prelude.{ℕ, ◌<◌, ◌^◌, List, length, All};
    ghost use Rattle.dl_logfmt.specs.Writing.{section_left};

    ghost Value = { List ℕ };

    ghost view = { λ s. section_left (E.bytes s.version) s.begun s.entries.now };

    ghost invariant = { λ s. (length s.entries.now < 2 ^ 32) × All (E.good s.version) s.entries.now };
}

impl<'a, E: Entry> SectionLeft<'a, E> {
    pub fn new(version: u8, entries: &'a [E]) -> SectionLeft<'a, E>
        requires few { length entries.now < 2 ^ 32 }
        requires each { All (E.good version) entries.now }
        ensures { result ≡ section (E.bytes version) entries.now }
    {
        SectionLeft {
            version,
            begun: false,
            entries,
        }
    }

    /// No section, whose bytes are none.
    pub fn none() -> SectionLeft<'a, E>
        ensures { result ≡ [] }
    {
        SectionLeft {
            version: 1,
            begun: true,
            entries: &[],
        }
    }

    /// The next unit, unless nothing is left.
    pub fn begin(&mut self) -> Option<Unit<'a>>
        ensures { IsNextUnit self.old result self.new }
    {
        if !self.begun {
            self.begun = true;
            return Some(Unit::number(self.entries.len() as u32));
        }
        let [entry, rest @ ..] = self.entries else {
            return None;
        };
        self.entries = rest;
        Some(entry.unit(self.version))
    }
}
