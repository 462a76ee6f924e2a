//! One line of a script.
ghost use Rattle.std.specs.Prelude.{◌≡◌, ◌≢◌, ◌<◌, ◌∷◌, [], length, slice_index, MatchOption};
ghost use Rattle.dl_event.specs.Line.{line_of, said, held, words_of, event_of_one, event_of_two, event_of_three, byte_of, value_of, number_of};

use spec_protocol::Event;

/// What a line says.
#[derive(Clone, Copy, Debug, PartialEq, Eq)]
pub enum Line {
    /// Nothing: it is empty, or a comment.
    Empty,
    /// One event.
    Holds(Event),
    /// It is neither.
    Wrong,
}

// Reads a line, without the LF at its end.
pub(crate) fn read_line(line: &[u8]) -> Line
    ensures { result ≡ line_of line.now }
{
    if line.starts_with(b"#") {
        return Line::Empty;
    }
    match first_word(line) {
        None => Line::Empty,
        Some((word, rest)) => read_event(word, rest).map_or(Line::Wrong, Line::Holds),
    }
}

// The event of a word and the numbers after it.
fn read_event(word: &[u8], rest: &[u8]) -> Option<Event>
    ensures { said (word.now ∷ words_of rest.now) ≡ held result }
{
    let (first, rest) = first_word(rest)?;
    match first_word(rest) {
        None => event_of_one(word, read_byte(first)?),
        Some((second, rest)) => read_longer(word, first, second, rest),
    }
}

// The same if there are at least two numbers.
fn read_longer(word: &[u8], first: &[u8], second: &[u8], rest: &[u8]) -> Option<Event>
    ensures { said (word.now ∷ first.now ∷ second.now ∷ words_of rest.now) ≡ held result }
{
    let first = read_byte(first)?;
    let second = read_byte(second)?;
    match first_word(rest) {
        None => event_of_two(word, first, second),
        Some((third, rest)) => {
            if first_word(rest).is_some() {
                return None;
            }
            event_of_three(word, first, second, third)
        }
    }
}

fn event_of_one(word: &[u8], number: u8) -> Option<Event>
    ensures { result ≡ event_of_one word.now number }
{
    match word {
        b"step" => Some(Event::Step(number)),
        b"cut" => Some(Event::Cut(number)),
        b"ask" => Some(Event::Ask(number)),
        b"drain" => Some(Event::Drain(number)),
        b"retire" => Some(Event::Retire(number)),
        b"dma" => Some(Event::Dma(number)),
        _ => None,
    }
}

fn event_of_two(word: &[u8], core: u8, slot: u8) -> Option<Event>
    ensures { result ≡ event_of_two word.now core slot }
{
    match word {
        b"deliver" => Some(Event::Deliver(core, slot)),
        _ => None,
    }
}

fn event_of_three(word: &[u8], first: u8, second: u8, third: &[u8]) -> Option<Event>
    ensures { result ≡ event_of_three word.now first second third.now }
{
    match word {
        b"place" => Some(Event::Place(first, second, read_byte(third)?)),
        b"raise" => Some(Event::Raise(first, second, read_value(third)?)),
        _ => None,
    }
}

// The first word, and what comes after it.
fn first_word(line: &[u8]) -> Option<(&[u8], &[u8])>
    ensures { MatchOption result (words_of line.now ≡ [])
        (λ found. words_of line.now ≡ found.0.now ∷ words_of found.1.now) }
{
    let start = line.iter().position(|byte| *byte != b' ')?;
    Some(split_word(&line[start..]))
}

// Splits a line that begins with a word, after that word.
fn split_word(line: &[u8]) -> (&[u8], &[u8])
    requires begins { 0 < length line.now }
    requires word { slice_index line.now 0 ≢ 32 }
    ensures { words_of line.now ≡ result.0.now ∷ words_of result.1.now }
{
    let end = line
        .iter()
        .position(|byte| *byte == b' ')
        .unwrap_or(line.len());
    line.split_at(end)
}

// A number that is at most 255.
fn read_byte(digits: &[u8]) -> Option<u8>
    ensures { result ≡ byte_of digits.now }
{
    u8::try_from(read_number(digits)?).ok()
}

// A number that is at most 2^32 - 1.
fn read_value(digits: &[u8]) -> Option<u32>
    ensures { result ≡ value_of digits.now }
{
    u32::try_from(read_number(digits)?).ok()
}

// The number that 1 to 10 digits write.
fn read_number(digits: &[u8]) -> Option<u64>
    ensures { result ≡ number_of digits.now }
{
    if digits.is_empty() || digits.len() > 10 {
        return None;
    }
    let mut number = 0u64;
    for digit in digits {
        if !digit.is_ascii_digit() {
            return None;
        }
        number = number * 10 + u64::from(*digit - b'0');
    }
    Some(number)
}
