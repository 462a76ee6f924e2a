//! The labels of a source.
ghost use Rattle.std.specs.Prelude.{◌≡◌, IfOk};
ghost use Rattle.dl_asm.specs.Labels.{AreLabels};
ghost use Rattle.dl_asm.specs.Sources.{lines_of};

use crate::line::{count, label, read_line};
use crate::number::FAR;
use std::alloc::{AllocError, Global};
use std::collections::BTreeMap;

/// A line by its index from 0, and the number of words before it.
#[derive(Clone, Copy)]
pub struct LabelPlace {
    pub line: u64,
    pub words: u64,
}

/// For each label the first line that has it.
#[derive(Drop)]
pub struct Labels<'a> {
    // Ordered by name and not hashed, because whoever writes a source could choose many names of the same hash.
    places: BTreeMap<&'a [u8], LabelPlace>,
}

impl<'a> Labels<'a> {
    ghost use Rattle.std.specs.Prelude.{◌≡◌, ℕ, List, OnOk, None};
    ghost use Rattle.dl_asm.specs.Labels.{entry_in, entry_after};
    ghost use Rattle.dl_asm.specs.Sources.{has_label};

    #[tactic(auto, unfolding(crate::specs::Labels::entry_in))]
    fn new(alloc: Global) -> Self
        ensures { (name : List ℕ) → entry_in result name ≡ None }
    {
        Labels {
            places: BTreeMap::new(alloc),
        }
    }

    /// The first line that has a label.
    #[tactic(auto, unfolding(crate::specs::Labels::entry_in))]
    pub fn get(&self, name: &[u8]) -> Option<LabelPlace>
        ensures { result ≡ entry_in self.now name.now }
    {
        self.places.get(name).copied()
    }

    // Notes a line, if it has a label that no earlier one has.
    fn note(&mut self, line: &'a [u8], place: LabelPlace) -> Result<(), AllocError>
        ensures { OnOk result ((name : List ℕ) → entry_in self.new name ≡ entry_after (entry_in self.old name) (has_label name line.now) place) }
    {
        let Some(name) = label(line) else {
            return Ok(());
        };
        if self.places.contains_key(name) {
            return Ok(());
        }
        self.places.insert(name, place)?;
        Ok(())
    }
}

/// The labels of a source, whose lines are separated by LF.
pub fn labels_of(alloc: Global, source: &[u8]) -> Result<Labels<'_>, AllocError>
    ensures { IfOk result (AreLabels (lines_of source.now)) }
{
    let mut labels = Labels::new(alloc);
    let mut place = LabelPlace { line: 0, words: 0 };
    for line in source.split(|byte| *byte == b'\n') {
        labels.note(line, place)?;
        let words = place.words + u64::from(count(&read_line(line)));
        place = LabelPlace {
            line: place.line + 1,
            words: words.min(FAR),
        };
    }
    Ok(labels)
}
