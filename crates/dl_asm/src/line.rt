//! One line of a source.
ghost use Rattle.std.specs.Prelude.{◌≡◌, ◌≤◌, length, true};
ghost use Rattle.std.specs.List.{list_all};
ghost use Rattle.std.specs.Option.{option_copied};
ghost use Rattle.dl_asm.specs.Characters as characters;
ghost use Rattle.dl_asm.specs.Lines as lines;
ghost use Rattle.dl_asm.specs.Numbers.{number_in};
ghost use Rattle.dl_asm.specs.Seen.{seen};
ghost use Rattle.dl_asm.specs.Texts as texts;

use crate::character::is_printable;
use crate::fields::{Registers, fields};
use crate::form::Form;
use crate::mnemonic::form_named;
use crate::number::Number;
use crate::operands::are_operands;
use crate::text::{after_blanks, is_mnemonic, is_name, split_once, split_word, trimmed};
use crate::value::MOST_WORDS;

/// What a line says.
#[derive(Clone, Copy)]
pub enum Line<'a> {
    /// No statement.
    Nothing,
    /// It doesn't have the form of a line.
    Misspelled,
    /// Its mnemonic is unknown.
    Unknown,
    /// Its operands aren't those of its form.
    Unfit(Form),
    /// A statement: its form, its registers and the text of its value.
    Says(Form, Registers, &'a [u8]),
}

/// Reads a line.
#[tactic(auto, unfolding(crate::specs::Lines::said))]
pub fn read_line(line: &[u8]) -> Line<'_>
    ensures { seen result ≡ lines.said line.now }
{
    if !are_printable(line) {
        return Line::Misspelled;
    }
    read_statement(statement(line))
}

/// The label that a line begins with.
#[tactic(auto, unfolding(crate::specs::Lines::label_of))]
pub fn label(line: &[u8]) -> Option<&[u8]>
    ensures { option_copied result ≡ lines.label_of line.now }
{
    label_in(after_blanks(line))
}

/// How many words a line takes.
pub fn count(line: &Line<'_>) -> u32
    ensures value { result ≡ lines.count_said (seen line.now) }
    ensures most { result ≤ 4194304 }
{
    match line {
        Line::Nothing | Line::Misspelled | Line::Unknown | Line::Unfit(Form::Zero) => 0,
        Line::Says(Form::Zero, _, value) => zeros(value),
        Line::Unfit(_) | Line::Says(_, _, _) => 1,
    }
}

fn zeros(value: &[u8]) -> u32
    ensures value { result ≡ lines.zeros_capped (number_in value.now) }
    ensures most { result ≤ 4194304 }
{
    match Number::read(value) {
        Some(number) if number.within(0, MOST_WORDS) => number.magnitude as u32,
        _ => 0,
    }
}

fn read_statement(statement: &[u8]) -> Line<'_>
    ensures { seen result ≡ lines.said_in statement.now }
{
    if statement.is_empty() {
        return Line::Nothing;
    }
    let (mnemonic, rest) = split_word(statement);
    let operands = trimmed(rest);
    if !is_mnemonic(mnemonic) || !are_operands(operands) {
        return Line::Misspelled;
    }
    let Some(form) = form_named(mnemonic) else {
        return Line::Unknown;
    };
    match fields(form, operands) {
        Some((registers, value)) => Line::Says(form, registers, value),
        None => Line::Unfit(form),
    }
}

// What is between the label and the comment.
fn statement(line: &[u8]) -> &[u8]
    ensures { result.now ≡ lines.statement_of line.now }
{
    trimmed(before_comment(after_label(after_blanks(line))))
}

fn before_comment(text: &[u8]) -> &[u8]
    ensures { result.now ≡ texts.before 35 text.now }
{
    match split_once(text, b'#') {
        Some((front, _)) => front,
        None => text,
    }
}

fn after_label(text: &[u8]) -> &[u8]
    ensures { result.now ≡ lines.after_label text.now }
{
    match split_once(text, b':') {
        Some((name, rest)) if is_name(name) => rest,
        _ => text,
    }
}

fn label_in(text: &[u8]) -> Option<&[u8]>
    ensures { option_copied result ≡ lines.label_in text.now }
{
    match split_once(text, b':') {
        Some((name, _)) if is_name(name) => Some(name),
        _ => None,
    }
}

fn are_printable(line: &[u8]) -> bool
    ensures { result ≡ list_all characters.is_printable line.now }
{
    line.iter().all(|byte| is_printable(*byte))
}
