//! What a form of statement takes from its operands.
ghost use Rattle.std.specs.Prelude.{◌≡◌, MatchOption, None, Some};
ghost use Rattle.dl_asm.specs.Fields as fields;
ghost use Rattle.dl_asm.specs.Fields.{of_two, of_three};

use crate::form::Form;
use crate::number::Number;
use crate::operand::{is_value, memory};
use crate::operands::{three, two};
use crate::register::read_register;
use spec_isa::field::Reg;

/// The registers of a statement: x0 for each that it doesn't have.
#[derive(Clone, Copy)]
pub struct Registers {
    pub rd: Reg,
    pub rs1: Reg,
    pub rs2: Reg,
}

/// The registers, and the text of the value, if the operands match the form in number and kind.
#[tactic(auto, unfolding(crate::specs::Fields::fields_of))]
pub fn fields(form: Form, text: &[u8]) -> Option<(Registers, &[u8])>
    ensures { MatchOption result (fields.fields_of form text.now ≡ None)
        (λ read. fields.fields_of form text.now ≡ Some (read.0, read.1.now)) }
{
    match form {
        Form::Register(_) => three_registers(text),
        Form::Immediate(_) | Form::Shift(_) => immediate(text),
        Form::Load(_) | Form::Jalr => load(text),
        Form::Store(_) => store(text),
        Form::Branch(_) => branch(text),
        Form::Lui | Form::Auipc | Form::Jal => upper(text),
        Form::Fence | Form::FenceI | Form::Ecall | Form::Ebreak => nothing(text),
        Form::LoadReserved(_) => reserved(text),
        Form::StoreConditional(_) | Form::Amo(_, _) => atomic(text),
        Form::Word => word(text),
        Form::Zero => zeros(text),
    }
}

// For a statement that takes none.
fn no_registers() -> Registers
    ensures { result ≡ record { rd = 0; rs1 = 0; rs2 = 0 } }
{
    Registers {
        rd: Reg::new(0),
        rs1: Reg::new(0),
        rs2: Reg::new(0),
    }
}

fn nothing(text: &[u8]) -> Option<(Registers, &[u8])>
    ensures { MatchOption result (fields.fields_none text.now ≡ None) (λ read. fields.fields_none text.now ≡ Some (read.0, read.1.now)) }
{
    if !text.is_empty() {
        return None;
    }
    Some((no_registers(), text))
}

fn word(text: &[u8]) -> Option<(Registers, &[u8])>
    ensures { MatchOption result (fields.fields_v text.now ≡ None) (λ read. fields.fields_v text.now ≡ Some (read.0, read.1.now)) }
{
    let value = value(text)?;
    Some((no_registers(), value))
}

fn zeros(text: &[u8]) -> Option<(Registers, &[u8])>
    ensures { MatchOption result (fields.fields_number text.now ≡ None) (λ read. fields.fields_number text.now ≡ Some (read.0, read.1.now)) }
{
    if Number::read(text).is_none() {
        return None;
    }
    Some((no_registers(), text))
}

fn upper(text: &[u8]) -> Option<(Registers, &[u8])>
    ensures { MatchOption result (of_two fields.fields_rv text.now ≡ None) (λ read. of_two fields.fields_rv text.now ≡ Some (read.0, read.1.now)) }
{
    let (rd, value_text) = two(text)?;
    let rd = read_register(rd)?;
    let value = value(value_text)?;
    Some((
        Registers {
            rd,
            ..no_registers()
        },
        value,
    ))
}

fn load(text: &[u8]) -> Option<(Registers, &[u8])>
    ensures { MatchOption result (of_two fields.fields_load text.now ≡ None) (λ read. of_two fields.fields_load text.now ≡ Some (read.0, read.1.now)) }
{
    let (rd, memory_text) = two(text)?;
    let rd = read_register(rd)?;
    let (offset, base) = memory(memory_text)?;
    let offset = value(offset)?;
    let rs1 = read_register(base)?;
    Some((
        Registers {
            rd,
            rs1,
            rs2: Reg::new(0),
        },
        offset,
    ))
}

fn store(text: &[u8]) -> Option<(Registers, &[u8])>
    ensures { MatchOption result (of_two fields.fields_store text.now ≡ None) (λ read. of_two fields.fields_store text.now ≡ Some (read.0, read.1.now)) }
{
    let (rs2, memory_text) = two(text)?;
    let rs2 = read_register(rs2)?;
    let (offset, base) = memory(memory_text)?;
    let offset = value(offset)?;
    let rs1 = read_register(base)?;
    Some((
        Registers {
            rd: Reg::new(0),
            rs1,
            rs2,
        },
        offset,
    ))
}

fn reserved(text: &[u8]) -> Option<(Registers, &[u8])>
    ensures { MatchOption result (of_two fields.fields_ra text.now ≡ None) (λ read. of_two fields.fields_ra text.now ≡ Some (read.0, read.1.now)) }
{
    let (rd, address_text) = two(text)?;
    let rd = read_register(rd)?;
    let rs1 = address(address_text)?;
    Some((
        Registers {
            rd,
            rs1,
            rs2: Reg::new(0),
        },
        &[],
    ))
}

fn three_registers(text: &[u8]) -> Option<(Registers, &[u8])>
    ensures { MatchOption result (of_three fields.fields_rrr text.now ≡ None) (λ read. of_three fields.fields_rrr text.now ≡ Some (read.0, read.1.now)) }
{
    let (rd, rs1, rs2) = three(text)?;
    let rd = read_register(rd)?;
    let rs1 = read_register(rs1)?;
    let rs2 = read_register(rs2)?;
    Some((Registers { rd, rs1, rs2 }, &[]))
}

fn immediate(text: &[u8]) -> Option<(Registers, &[u8])>
    ensures { MatchOption result (of_three fields.fields_rrv text.now ≡ None) (λ read. of_three fields.fields_rrv text.now ≡ Some (read.0, read.1.now)) }
{
    let (rd, rs1, value_text) = three(text)?;
    let rd = read_register(rd)?;
    let rs1 = read_register(rs1)?;
    let value = value(value_text)?;
    Some((
        Registers {
            rd,
            rs1,
            rs2: Reg::new(0),
        },
        value,
    ))
}

fn branch(text: &[u8]) -> Option<(Registers, &[u8])>
    ensures { MatchOption result (of_three fields.fields_branch text.now ≡ None) (λ read. of_three fields.fields_branch text.now ≡ Some (read.0, read.1.now)) }
{
    let (rs1, rs2, value_text) = three(text)?;
    let rs1 = read_register(rs1)?;
    let rs2 = read_register(rs2)?;
    let value = value(value_text)?;
    Some((
        Registers {
            rd: Reg::new(0),
            rs1,
            rs2,
        },
        value,
    ))
}

fn atomic(text: &[u8]) -> Option<(Registers, &[u8])>
    ensures { MatchOption result (of_three fields.fields_rra text.now ≡ None) (λ read. of_three fields.fields_rra text.now ≡ Some (read.0, read.1.now)) }
{
    let (rd, rs2, address_text) = three(text)?;
    let rd = read_register(rd)?;
    let rs2 = read_register(rs2)?;
    let rs1 = address(address_text)?;
    Some((Registers { rd, rs1, rs2 }, &[]))
}

// The text itself, if it is that of a value.
fn value(text: &[u8]) -> Option<&[u8]>
    ensures { MatchOption result (fields.value_in text.now ≡ None) (λ value. fields.value_in text.now ≡ Some value.now) }
{
    if is_value(text) { Some(text) } else { None }
}

// The base of a memory operand without an offset.
fn address(text: &[u8]) -> Option<Reg>
    ensures { result ≡ fields.address_in text.now }
{
    let (offset, base) = memory(text)?;
    if offset.is_empty() {
        read_register(base)
    } else {
        None
    }
}
