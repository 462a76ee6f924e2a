//! Whole scripts.
ghost use Rattle.std.specs.Prelude.{◌≡◌, ◌≢◌, ◌≤◌, ◌<◌, ◌^◌, ◌+◌, ℕ, List, ◌∷◌, ◌++◌, length, take, drop, replicate, Ok, IfOk, IfErr, IfSome, MatchOption};
ghost use Rattle.std.specs.Int.{to_le_bytes, w64};
ghost use Rattle.std.specs.List.{AllWithin};
ghost use Rattle.dl_event.specs.declared.line.Line.TheVariants.{Holds};
ghost use Rattle.dl_event.specs.Script.{lines_of, script_of, Refuses};
ghost use Rattle.dl_event.specs.Reading.{IsBehind, IsLine};

use crate::error::ScriptError;
use crate::events::Events;
use crate::line::{Line, read_line};
use crate::reader::ScriptReader;
use spec_protocol::Event;
use std::alloc::Global;

// The bytes of `step` as one number, little-endian.
const STEP: u32 = 0x7065_7473;

/// The events of a script, whose lines end with LF; the last need not. A line is empty or spaces alone, or begins
/// with `#`, or is one of `step C`, `cut C`, `ask C`, `drain K`, `deliver C K`, `retire K`, `place C S T`, `raise S T V`
/// and `dma S`, with spaces between and around: numbers of 1 to 10 decimal digits, V at most 2^32 - 1 and the others at
/// most 255. The first line that is none of these, or holds the event after the 2^24th, is refused, by its number from 1.
pub fn parse_script(alloc: Global, bytes: &[u8]) -> Result<Events, ScriptError>
    ensures read { IfOk result (λ events. script_of bytes.now ≡ Ok events) }
    ensures refused { IfErr result (Refuses (script_of bytes.now)) }
    ensures few { IfOk result (λ events. length events ≤ 2 ^ 24) }
{
    let (reader, last) = ScriptReader::new(alloc).read_lines(bytes)?;
    reader.read_last(last)
}

// What a first line that ends with LF says, and the text after the LF.
pub(crate) fn next_line(text: &[u8]) -> Option<(Line, &[u8])>
    ensures lines { MatchOption result (AllWithin (λ byte. byte ≢ 10) text.now 0 (length text.now))
        (λ read. (tail : List ℕ) → lines_of (text.now ++ tail) ≡ read.0 ∷ lines_of (read.1.now ++ tail)) }
    ensures behind { IfSome result (λ read. IsBehind text.now read.1.now) }
    ensures shorter { IfSome result (λ read. length read.1.now < length text.now) }
{
    let end = text.iter().position(|byte| *byte == b'\n')?;
    Some((read_line(&text[..end]), &text[end + 1..]))
}

// The event of a first line in its shortest form, how many lines in a row are like it, up to `most`, and the text
// after them.
pub(crate) fn short_lines(text: &[u8], most: u32) -> Option<(Event, u32, &[u8])>
    ensures lines { IfSome result (λ read. (tail : List ℕ)
        → lines_of (text.now ++ tail) ≡ replicate read.1 (Holds read.0) ++ lines_of (read.2.now ++ tail)) }
    ensures behind { IfSome result (λ read. IsBehind text.now read.2.now) }
    ensures shorter { IfSome result (λ read. read.1 + length read.2.now ≤ length text.now) }
    ensures some { IfSome result (λ read. 1 ≤ read.1) }
    ensures most { IfSome result (λ read. read.1 ≤ most) }
{
    if most == 0 {
        return None;
    }
    let (event, size) = short_line(text)?;
    let behind = &text[size..];
    let more = (common(text, behind) / size).min(most as usize - 1);
    Some((event, 1 + more as u32, &behind[more * size..]))
}

// A lower bound of how many bytes two texts have in common at their front: they are compared eight at a time.
fn common(a: &[u8], b: &[u8]) -> usize
    ensures same { take result a.now ≡ take result b.now }
    ensures within { result ≤ length a.now }
    ensures within_other { result ≤ length b.now }
{
    let mut n = 0;
    while let (Some(x), Some(y)) = (eight_at(a, n), eight_at(b, n))
        && x == y
    {
        n += 8;
    }
    n
}

// The eight bytes of a text from a place on, as one number, if there are that many.
fn eight_at(text: &[u8], at: usize) -> Option<u64>
    requires { at ≤ length text.now }
    ensures { IfSome result (λ n. (at + 8 ≤ length text.now) × (take 8 (drop at text.now) ≡ to_le_bytes w64 n)) }
{
    let bytes = text[at..].first_chunk::<8>()?;
    Some(u64::from_le_bytes(*bytes))
}

// The event of a first line in its shortest form, with one digit and no needless space, as programs write nearly all lines;
// and its size, with its LF.
#[inline(always)]
fn short_line(text: &[u8]) -> Option<(Event, usize)>
    ensures line { IfSome result (λ read. IsLine read.0 (take read.1 text.now)) }
    ensures within { IfSome result (λ read. read.1 ≤ length text.now) }
    ensures some { IfSome result (λ read. 1 ≤ read.1) }
{
    if let [a, b, c, d, b' ', n, b'\n', ..] = text
        && u32::from_le_bytes([*a, *b, *c, *d]) == STEP
        && n.is_ascii_digit()
    {
        return Some((Event::Step(*n - b'0'), 7));
    }
    if let [b'd', b'r', b'a', b'i', b'n', b' ', n, b'\n', ..] = text
        && n.is_ascii_digit()
    {
        return Some((Event::Drain(*n - b'0'), 8));
    }
    if let [b'a', b's', b'k', b' ', n, b'\n', ..] = text
        && n.is_ascii_digit()
    {
        return Some((Event::Ask(*n - b'0'), 6));
    }
    if let [b'r', b'e', b't', b'i', b'r', b'e', b' ', n, b'\n', ..] = text
        && n.is_ascii_digit()
    {
        return Some((Event::Retire(*n - b'0'), 9));
    }
    if let [
        b'd',
        b'e',
        b'l',
        b'i',
        b'v',
        b'e',
        b'r',
        b' ',
        m,
        b' ',
        n,
        b'\n',
        ..
    ] = text
        && m.is_ascii_digit()
        && n.is_ascii_digit()
    {
        return Some((Event::Deliver(*m - b'0', *n - b'0'), 12));
    }
    None
}
