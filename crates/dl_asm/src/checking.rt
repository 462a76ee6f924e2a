//! The rules of a line: what it says, where it is, and the labels of the source.
ghost use Rattle.std.specs.Prelude.{◌≡◌, ◌≤◌, ◌+◌, ℕ, Bool, List, Option, Some, None, not, MatchResult, IfOk, IfSome, true, false, length};
ghost use Rattle.std.specs.Option.{option_map};
ghost use Rattle.dl_asm.specs.declared.form.Form.{Form};
ghost use Rattle.dl_asm.specs.declared.fields.Registers.{Registers};
ghost use Rattle.dl_asm.specs.declared.number.Number.{Number};
ghost use Rattle.dl_asm.specs.Checked.{IsWhere};
ghost use Rattle.dl_asm.specs.Lines.{Says, count_said};
ghost use Rattle.dl_asm.specs.Numbers.{capped, number_capped};
ghost use Rattle.dl_asm.specs.Seen.{seen};
ghost use Rattle.dl_asm.specs.Sources as sources;
ghost use Rattle.dl_asm.specs.Values as values;

use crate::error::Rule;
use crate::form::Form;
use crate::labels::Labels;
use crate::line::{Line, count};
use crate::number::Number;
use crate::statement::Statement;
use crate::value::{MOST_WORDS, holds, takes_distance};

/// The statement of a line, if it has one, or the first rule that the line breaks: there are `here` words before it, and
/// `twice` says whether an earlier line has its label.
pub fn check(
    line: &Line<'_>,
    here: u32,
    twice: bool,
    labels: &Labels<'_>,
) -> Result<Option<Statement>, Rule>
    requires { here ≤ 4194304 }
    ensures answer { (places : List ℕ → Option ℕ) → IsWhere labels.now places → MatchResult result
        (λ statement. (sources.broken here places twice (seen line.now) ≡ None)
        × (statement ≡ sources.statement_said here places (seen line.now)))
        (λ rule. sources.broken here places twice (seen line.now) ≡ Some rule) }
    ensures held { IfOk result (λ found. IfSome found (λ statement. values.holds statement.form statement.number ≡ true)) }
    ensures room { IfOk result (λ found. here + count_said (seen line.now) ≤ 4194304) }
{
    match line {
        Line::Misspelled => Err(Rule::Syntax),
        Line::Unknown => Err(Rule::Mnemonic),
        Line::Unfit(_) => Err(Rule::Operands),
        Line::Nothing if twice => Err(Rule::LabelTwice),
        Line::Nothing => Ok(None),
        Line::Says(form, registers, value) => {
            let number = number(*form, value, here, labels);
            match checked(*form, number, twice, here + count(line)) {
                Ok(number) => Ok(Some(Statement {
                    form: *form,
                    registers: *registers,
                    number,
                })),
                Err(rule) => Err(rule),
            }
        }
    }
}

// The number of a statement, by the rules on numbers, labels and length.
fn checked(form: Form, number: Option<Number>, twice: bool, words: u32) -> Result<Number, Rule>
    ensures answer { (exact : Option Number) (registers : Registers) (value : List ℕ) → number ≡ option_map number_capped exact → MatchResult result
        (λ number. (sources.broken_by (Says form registers value) exact twice words ≡ None) × (exact ≡ Some number))
        (λ rule. sources.broken_by (Says form registers value) exact twice words ≡ Some rule) }
    ensures held { IfOk result (λ number. values.holds form number ≡ true) }
    ensures room { IfOk result (λ number. words ≤ 4194304) }
{
    if is_out_of_range(form, number) {
        return Err(Rule::Range);
    }
    if twice {
        return Err(Rule::LabelTwice);
    }
    let Some(number) = number else {
        return Err(Rule::NoLabel);
    };
    if u64::from(words) > MOST_WORDS {
        return Err(Rule::TooLong);
    }
    Ok(number)
}

fn is_out_of_range(form: Form, number: Option<Number>) -> bool
    ensures known { (found : Number) → number ≡ Some found → result ≡ not (values.holds form found) }
    ensures unknown { number ≡ None → result ≡ false }
{
    match number {
        Some(number) => !holds(form, number),
        None => false,
    }
}

// What the value of a statement stands for; none if no line has the label that it names.
fn number(form: Form, value: &[u8], here: u32, labels: &Labels<'_>) -> Option<Number>
    requires { here ≤ 4194304 }
    ensures { (places : List ℕ → Option ℕ) → IsWhere labels.now places
        → result ≡ option_map number_capped (sources.number_of form here (places value.now) value.now) }
{
    if value.is_empty() {
        return Some(Number::address(0));
    }
    if let Some(number) = Number::read(value) {
        return Some(number);
    }
    let place = labels.get(value)?;
    Some(number_by_label(form, here, place.words))
}

fn number_by_label(form: Form, here: u32, there: u64) -> Number
    requires { here ≤ 4194304 }
    ensures { (place : ℕ) → there ≡ capped place → result ≡ number_capped (sources.number_by_label form here place) }
{
    if takes_distance(form) {
        Number::distance(u64::from(here), there)
    } else {
        Number::address(there)
    }
}
