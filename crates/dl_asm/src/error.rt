//! Why a source is not assembled.
use thiserror::Error;

/// A rule that a line can break. If it breaks several, the first in this order is told.
#[derive(Clone, Copy, Debug, PartialEq, Eq)]
pub enum Rule {
    /// It doesn't have the form of a line.
    Syntax,
    /// Its mnemonic is unknown.
    Mnemonic,
    /// Its operands don't match its mnemonic in number and kind.
    Operands,
    /// Its value is out of range.
    Range,
    /// An earlier line has its label.
    LabelTwice,
    /// No line has the label that it names.
    NoLabel,
    /// The code up to its end has over 16,777,216 bytes.
    TooLong,
}

impl Rule {
    ghost use Rattle.std.specs.Prelude.{◌≡◌};
    ghost use Rattle.dl_asm.specs.Numbering.{rule_number};

    /// Its number, from 1 to 7.
    pub fn number(self) -> u8
        ensures { result ≡ rule_number self }
    {
        match self {
            Rule::Syntax => 1,
            Rule::Mnemonic => 2,
            Rule::Operands => 3,
            Rule::Range => 4,
            Rule::LabelTwice => 5,
            Rule::NoLabel => 6,
            Rule::TooLong => 7,
        }
    }
}

/// Why there is no file.
#[derive(Clone, Copy, Debug, PartialEq, Eq, Error)]
pub enum AsmError {
    /// The line of that number, counted from 1, is the first that breaks a rule.
    #[error("line {line} is refused: {rule:?}")]
    Refused { line: u64, rule: Rule },
    /// Memory ran out.
    #[error("out of memory")]
    OutOfMemory,
}
