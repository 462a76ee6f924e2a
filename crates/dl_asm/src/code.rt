//! The words of a source.
ghost use Rattle.std.specs.Prelude.{◌≡◌, ℕ, List, MatchResult, take};
ghost use Rattle.dl_asm.specs.Labels.{AreLabels};
ghost use Rattle.dl_asm.specs.Lines.{label_of};
ghost use Rattle.dl_asm.specs.Promise.{IsCode, Refuses};
ghost use Rattle.dl_asm.specs.Sources.{lines_of, line_at, repeats};

use crate::checking::check;
use crate::error::AsmError;
use crate::labels::Labels;
use crate::line::{label, read_line};
use crate::statement::append;
use std::alloc::Global;

/// The words of a source, or the first line that breaks a rule.
pub fn code(alloc: Global, source: &[u8], labels: &Labels<'_>) -> Result<Vec<u32>, AsmError>
    requires { AreLabels (lines_of source.now) labels.now }
    ensures { MatchResult result (λ words. IsCode (lines_of source.now) words.items) (Refuses source.now) }
{
    let mut words = Vec::new(alloc);
    let mut index = 0u64;
    for text in source.split(|byte| *byte == b'\n') {
        let twice = is_repeated(text, index, labels);
        let statement = match check(
            &read_line(text),
            words.as_slice().len() as u32,
            twice,
            labels,
        ) {
            Ok(statement) => statement,
            Err(rule) => {
                return Err(AsmError::Refused {
                    line: index + 1,
                    rule,
                });
            }
        };
        let Ok(()) = append(&mut words, statement) else {
            return Err(AsmError::OutOfMemory);
        };
        index += 1;
    }
    Ok(words)
}

// Whether an earlier line has the label of a line.
fn is_repeated(text: &[u8], index: u64, labels: &Labels<'_>) -> bool
    ensures { (lines : List (List ℕ)) → AreLabels lines labels.now → result ≡ repeats (take index lines) (label_of text.now) }
{
    let Some(name) = label(text) else {
        return false;
    };
    match labels.get(name) {
        Some(place) => place.line < index,
        None => false,
    }
}
