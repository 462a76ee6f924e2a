//! A statement that keeps every rule, and the words that it takes.
ghost use Rattle.std.specs.Prelude.{◌≡◌, ◌≤◌, ◌++◌, true, replicate, OnOk, Some, IfSome};
ghost use Rattle.spec_isa.specs.Denoted.{denoted};
ghost use Rattle.spec_isa.specs.Encoding.{spelling};
ghost use Rattle.dl_asm.specs.Sources.{instr_by, words_by};
ghost use Rattle.dl_asm.specs.Values as values;

use crate::fields::Registers;
use crate::form::Form;
use crate::number::Number;
use crate::value::instr;
use dl_isa::encode;
use std::alloc::AllocError;

/// A statement with the number of its value, 0 if it has none.
#[derive(Clone, Copy)]
pub struct Statement {
    pub form: Form,
    pub registers: Registers,
    pub number: Number,
}

/// Appends the words of a line whose statement is known, if it has one.
pub fn append(words: &mut Vec<u32>, statement: Option<Statement>) -> Result<(), AllocError>
    requires { IfSome statement (λ s. values.holds s.form s.number ≡ true) }
    ensures words { OnOk result (words.new.items ≡ words.old.items ++ words_by statement) }
    ensures spelled { OnOk result (IfSome (instr_by statement) (λ i. denoted (spelling i) ≡ Some i)) }
{
    match statement {
        Some(statement) => statement.append_to(words),
        None => Ok(()),
    }
}

impl Statement {
    /// Appends its words, if its form holds its number.
    pub fn append_to(self, words: &mut Vec<u32>) -> Result<(), AllocError>
        requires { values.holds self.form self.number ≡ true }
        ensures words { OnOk result (words.new.items ≡ words.old.items ++ values.words_of self.form self.registers self.number) }
        ensures denotes { OnOk result (IfSome (values.instr_of self.form self.registers self.number) (λ i. denoted (spelling i) ≡ Some i)) }
    {
        match instr(self.form, self.registers, self.number) {
            Some(instr) => words.push(encode(&instr))?,
            None => append_data(words, self.form, self.number)?,
        }
        Ok(())
    }
}

#[tactic(auto, unfolding(crate::specs::Values::holds))]
fn append_data(words: &mut Vec<u32>, form: Form, number: Number) -> Result<(), AllocError>
    requires { values.holds form number ≡ true }
    ensures { OnOk result (words.new.items ≡ words.old.items ++ values.data_of form number) }
{
    match form {
        Form::Zero => append_zeros(words, number.magnitude)?,
        _ => words.push(number.bits(1 << 32))?,
    }
    Ok(())
}

fn append_zeros(words: &mut Vec<u32>, count: u64) -> Result<(), AllocError>
    requires { count ≤ 4194304 }
    ensures { OnOk result (words.new.items ≡ words.old.items ++ replicate count 0) }
{
    words.resize(words.len() + count as usize, 0)
}
