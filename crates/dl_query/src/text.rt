//! Answers as text. If the log diverges, an answer is over the commits before, and a line more says where and why.
ghost use Rattle.std.specs.Prelude.{◌≡◌, ◌++◌, IfOk, OnOk, flat_map};
ghost use Rattle.spec_query.specs.Texts.{end_text, last_text, line_text, lines_text, none_text, when_text};

use dl_account::{Text, why_text};
use dl_entry::{End, OutOfMemory};
use spec_query::{Line, When};
use std::alloc::Global;

/// A line each, or `none`.
pub fn lines_text(alloc: Global, lines: &[Line], end: End) -> Result<Vec<u8>, OutOfMemory>
    ensures { IfOk result (λ text. text.items ≡ lines_text lines.now ++ end_text end) }
{
    let mut text = Text::new(alloc);
    put_lines(&mut text, lines)?;
    put_end(alloc, &mut text, end)?;
    Ok(text.into_bytes())
}

/// The line, or `none`.
pub fn last_text(alloc: Global, last: Option<Line>, end: End) -> Result<Vec<u8>, OutOfMemory>
    ensures { IfOk result (λ text. text.items ≡ last_text last ++ end_text end) }
{
    let mut text = Text::new(alloc);
    put_last(&mut text, last)?;
    put_end(alloc, &mut text, end)?;
    Ok(text.into_bytes())
}

/// The line, or `start` or `none`.
pub fn when_text(alloc: Global, when: When, end: End) -> Result<Vec<u8>, OutOfMemory>
    ensures { IfOk result (λ text. text.items ≡ when_text when ++ end_text end) }
{
    let mut text = Text::new(alloc);
    put_when(&mut text, when)?;
    put_end(alloc, &mut text, end)?;
    Ok(text.into_bytes())
}

/// Where and why the log diverges, or no text if it doesn't.
pub fn end_text(alloc: Global, end: End) -> Result<Vec<u8>, OutOfMemory>
    ensures { IfOk result (λ text. text.items ≡ end_text end) }
{
    let mut text = Text::new(alloc);
    put_end(alloc, &mut text, end)?;
    Ok(text.into_bytes())
}

fn put_lines(text: &mut Text, lines: &[Line]) -> Result<(), OutOfMemory>
    ensures { OnOk result (text.new ≡ text.old ++ lines_text lines.now) }
{
    if lines.is_empty() {
        return put_none(text);
    }
    put_each(text, lines)
}

fn put_each(text: &mut Text, lines: &[Line]) -> Result<(), OutOfMemory>
    ensures { OnOk result (text.new ≡ text.old ++ flat_map line_text lines.now) }
{
    for line in lines {
        put_line(text, *line)?;
    }
    Ok(())
}

fn put_last(text: &mut Text, last: Option<Line>) -> Result<(), OutOfMemory>
    ensures { OnOk result (text.new ≡ text.old ++ last_text last) }
{
    match last {
        Some(line) => put_line(text, line),
        None => put_none(text),
    }
}

fn put_when(text: &mut Text, when: When) -> Result<(), OutOfMemory>
    ensures { OnOk result (text.new ≡ text.old ++ when_text when) }
{
    match when {
        When::Start => text.put(b"start\n"),
        When::At(line) => put_line(text, line),
        When::None => put_none(text),
    }
}

// `diverged COMMIT WHY`, if the log diverges.
fn put_end(alloc: Global, text: &mut Text, end: End) -> Result<(), OutOfMemory>
    ensures { OnOk result (text.new ≡ text.old ++ end_text end) }
{
    match end {
        End::Complete(_) | End::At(_) => Ok(()),
        End::Diverged(index, why) => {
            text.put(b"diverged")?;
            text.put_number(u64::from(index))?;
            text.put(&why_text(alloc, why)?)?;
            text.put(b"\n")
        }
    }
}

// `w COMMIT ACTOR VALUE`
fn put_line(text: &mut Text, line: Line) -> Result<(), OutOfMemory>
    ensures { OnOk result (text.new ≡ text.old ++ line_text line) }
{
    text.put(b"w")?;
    text.put_number(u64::from(line.commit))?;
    text.put_number(u64::from(line.actor.code()))?;
    text.put_hex_word(line.value)?;
    text.put(b"\n")
}

fn put_none(text: &mut Text) -> Result<(), OutOfMemory>
    ensures { OnOk result (text.new ≡ text.old ++ none_text) }
{
    text.put(b"none\n")
}
