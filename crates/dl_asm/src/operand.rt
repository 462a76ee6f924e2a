//! One operand: a number or a name, alone or with parentheses.
ghost use Rattle.std.specs.Prelude.{◌≡◌, MatchOption, None, Some};
ghost use Rattle.dl_asm.specs.Operands as operands;
ghost use Rattle.dl_asm.specs.Operands.{memory_in};

use crate::number::Number;
use crate::register::read_register;
use crate::text::{is_name, split_once, trimmed};

/// Whether it has the form of an operand.
pub fn is_operand(text: &[u8]) -> bool
    ensures { result ≡ operands.is_operand text.now }
{
    is_plain(text) || is_memory(text)
}

/// A number, or the name of a label.
pub fn is_value(text: &[u8]) -> bool
    ensures { result ≡ operands.is_value text.now }
{
    is_plain(text) && read_register(text).is_none()
}

/// What is before the parentheses, and what is between them.
pub fn memory(text: &[u8]) -> Option<(&[u8], &[u8])>
    ensures { MatchOption result (memory_in text.now ≡ None)
        (λ parts. memory_in text.now ≡ Some (parts.0.now, parts.1.now)) }
{
    let (outside, rest) = split_once(text, b'(')?;
    let inside = rest.strip_suffix(b")".as_slice())?;
    Some((trimmed(outside), trimmed(inside)))
}

// A number, or a name.
fn is_plain(text: &[u8]) -> bool
    ensures { result ≡ operands.is_plain text.now }
{
    Number::read(text).is_some() || is_name(text)
}

fn is_memory(text: &[u8]) -> bool
    ensures { result ≡ operands.is_memory (memory_in text.now) }
{
    let Some((outside, inside)) = memory(text) else {
        return false;
    };
    (outside.is_empty() || is_plain(outside)) && is_plain(inside)
}
