//! The operands of a statement, separated by commas.
ghost use Rattle.std.specs.Prelude.{◌≡◌, ◌∷◌, [], MatchOption, None, Some};
ghost use Rattle.dl_asm.specs.Operands as operands;
ghost use Rattle.dl_asm.specs.Operands.{operands_in, two_of, three_of};

use crate::operand::is_operand;
use crate::text::{split_once, trimmed};

/// Whether it is nothing, or each of the operands has the form of one.
#[tactic(auto, unfolding(crate::specs::Operands::are_operands))]
pub fn are_operands(text: &[u8]) -> bool
    ensures { result ≡ operands.are_operands text.now }
{
    if text.is_empty() {
        return true;
    }
    text.split(|byte| *byte == b',')
        .all(|operand| is_operand(trimmed(operand)))
}

/// The first operand, and the text of the others if there are any.
pub fn first_operand(text: &[u8]) -> (&[u8], Option<&[u8]>)
    ensures { MatchOption result.1 (operands_in text.now ≡ result.0.now ∷ [])
        (λ rest. operands_in text.now ≡ result.0.now ∷ operands_in rest.now) }
{
    match split_once(text, b',') {
        Some((operand, rest)) => (trimmed(operand), Some(rest)),
        None => (trimmed(text), None),
    }
}

/// Two operands, if there are two.
pub fn two(text: &[u8]) -> Option<(&[u8], &[u8])>
    ensures { MatchOption result (two_of (operands_in text.now) ≡ None)
        (λ texts. two_of (operands_in text.now) ≡ Some (texts.0.now, texts.1.now)) }
{
    let (first, rest) = first_operand(text);
    let (second, rest) = first_operand(rest?);
    match rest {
        Some(_) => None,
        None => Some((first, second)),
    }
}

/// Three operands, if there are three.
pub fn three(text: &[u8]) -> Option<(&[u8], &[u8], &[u8])>
    ensures { MatchOption result (three_of (operands_in text.now) ≡ None)
        (λ texts. three_of (operands_in text.now) ≡ Some (texts.0.now, texts.1.now, texts.2.now)) }
{
    let (first, rest) = first_operand(text);
    let (second, rest) = first_operand(rest?);
    let (third, rest) = first_operand(rest?);
    match rest {
        Some(_) => None,
        None => Some((first, second, third)),
    }
}
