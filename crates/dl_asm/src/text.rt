//! Pieces of a line.
ghost use Rattle.std.specs.Prelude.{◌≡◌, ◌<◌, length, MatchOption};
ghost use Rattle.dl_asm.specs.Texts as texts;

use crate::character::{
    begins_mnemonic, begins_name, continues_mnemonic, continues_name, is_blank,
};

/// Without the blanks around it.
pub fn trimmed(text: &[u8]) -> &[u8]
    ensures { result.now ≡ texts.trimmed text.now }
{
    before_blanks(after_blanks(text))
}

/// Without the blanks that it begins with.
pub fn after_blanks(text: &[u8]) -> &[u8]
    ensures { result.now ≡ texts.after_blanks text.now }
{
    let start = text
        .iter()
        .position(|byte| !is_blank(*byte))
        .unwrap_or(text.len());
    &text[start..]
}

// Without the blanks that it ends with.
fn before_blanks(text: &[u8]) -> &[u8]
    ensures { result.now ≡ texts.before_blanks text.now }
{
    let mut end = text.len();
    while end > 0 && is_blank(text[end - 1]) {
        end -= 1;
    }
    &text[..end]
}

/// What comes before the first byte of that value, and what comes after it, if there is one.
pub fn split_once(text: &[u8], byte: u8) -> Option<(&[u8], &[u8])>
    ensures { MatchOption result (texts.place_of byte text.now ≡ length text.now)
        (λ parts. (texts.place_of byte text.now < length text.now) × (parts.0.now ≡ texts.before byte text.now)
        × (parts.1.now ≡ texts.behind byte text.now)) }
{
    let place = text.iter().position(|other| *other == byte)?;
    Some((&text[..place], &text[place + 1..]))
}

/// What comes before the first blank, and what comes after it.
pub fn split_word(text: &[u8]) -> (&[u8], &[u8])
    ensures word { result.0.now ≡ texts.first_word text.now }
    ensures rest { result.1.now ≡ texts.other_words text.now }
{
    match text.iter().position(|byte| is_blank(*byte)) {
        Some(place) => (&text[..place], &text[place + 1..]),
        None => (text, &text[text.len()..]),
    }
}

/// A letter or `_`, then letters, digits or `_`.
pub fn is_name(text: &[u8]) -> bool
    ensures { result ≡ texts.is_name text.now }
{
    let Some((first, rest)) = text.split_first() else {
        return false;
    };
    begins_name(*first) && rest.iter().all(|byte| continues_name(*byte))
}

/// The same with dots.
pub fn is_mnemonic(text: &[u8]) -> bool
    ensures { result ≡ texts.is_mnemonic text.now }
{
    let Some((first, rest)) = text.split_first() else {
        return false;
    };
    begins_mnemonic(*first) && rest.iter().all(|byte| continues_mnemonic(*byte))
}
