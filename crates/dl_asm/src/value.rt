//! The values of statements: their ranges, and the instructions and words that hold them.
ghost use Rattle.std.specs.Prelude.{◌≡◌, true};
ghost use Rattle.dl_asm.specs.Values as values;

use crate::fields::Registers;
use crate::form::Form;
use crate::number::Number;
use spec_isa::field::{Imm12, Imm20, Reg};
use spec_isa::instr::Instr;

/// Code is at most 16,777,216 bytes.
pub const MOST_WORDS: u64 = 4_194_304;

/// Whether a statement of that form can hold the number.
#[tactic(auto, unfolding(crate::specs::Values::holds))]
pub fn holds(form: Form, number: Number) -> bool
    ensures { result ≡ values.holds form number }
{
    match form {
        Form::Immediate(_) | Form::Load(_) | Form::Store(_) | Form::Jalr => {
            number.within(2048, 2047)
        }
        Form::Shift(_) => number.within(0, 31),
        Form::Branch(_) => number.within(4096, 4094) && number.is_even(),
        Form::Lui | Form::Auipc => number.within(0, 1_048_575),
        Form::Jal => number.within(1_048_576, 1_048_574) && number.is_even(),
        Form::Word => number.within(1 << 31, (1 << 32) - 1),
        Form::Zero => number.within(0, MOST_WORDS),
        Form::Register(_)
        | Form::Fence
        | Form::FenceI
        | Form::Ecall
        | Form::Ebreak
        | Form::LoadReserved(_)
        | Form::StoreConditional(_)
        | Form::Amo(_, _) => number.within(0, 0),
    }
}

/// Whether a label stands for the distance to it, and not for its address.
pub fn takes_distance(form: Form) -> bool
    ensures { result ≡ values.takes_distance form }
{
    match form {
        Form::Branch(_) | Form::Jal => true,
        _ => false,
    }
}

/// The instruction of a statement whose form holds the number; none for words of data.
#[tactic(auto, unfolding(crate::specs::Values::holds, crate::specs::Values::instr_of))]
pub fn instr(form: Form, registers: Registers, number: Number) -> Option<Instr>
    requires { values.holds form number ≡ true }
    ensures { result ≡ values.instr_of form registers number }
{
    let Registers { rd, rs1, rs2 } = registers;
    match form {
        Form::Register(op) => Some(Instr::Register { op, rd, rs1, rs2 }),
        Form::Immediate(op) => Some(Instr::Immediate {
            op,
            rd,
            rs1,
            imm: twelve(number),
        }),
        Form::Shift(op) => Some(Instr::Shift {
            op,
            rd,
            rs1,
            amount: Reg::new(number.bits(1 << 5)),
        }),
        Form::Load(op) => Some(Instr::Load {
            op,
            rd,
            rs1,
            offset: twelve(number),
        }),
        Form::Store(op) => Some(Instr::Store {
            op,
            rs1,
            rs2,
            offset: twelve(number),
        }),
        Form::Branch(op) => Some(Instr::Branch {
            op,
            rs1,
            rs2,
            offset: Imm12::new(number.bits(1 << 13) / 2),
        }),
        Form::Lui => Some(Instr::Lui {
            rd,
            imm: twenty(number),
        }),
        Form::Auipc => Some(Instr::Auipc {
            rd,
            imm: twenty(number),
        }),
        Form::Jal => Some(Instr::Jal {
            rd,
            offset: Imm20::new(number.bits(1 << 21) / 2),
        }),
        Form::Jalr => Some(Instr::Jalr {
            rd,
            rs1,
            offset: twelve(number),
        }),
        Form::LoadReserved(order) => Some(Instr::LoadReserved {
            rd,
            rs1,
            acquire: order.acquire,
            release: order.release,
        }),
        Form::StoreConditional(order) => Some(Instr::StoreConditional {
            rd,
            rs1,
            rs2,
            acquire: order.acquire,
            release: order.release,
        }),
        Form::Amo(op, order) => Some(Instr::Amo {
            op,
            rd,
            rs1,
            rs2,
            acquire: order.acquire,
            release: order.release,
        }),
        Form::Fence => Some(Instr::Fence {
            rd: Reg::new(0),
            rs1: Reg::new(0),
            imm: Imm12::new(0x0FF),
        }),
        Form::FenceI => Some(Instr::FenceI {
            rd: Reg::new(0),
            rs1: Reg::new(0),
            imm: Imm12::new(0),
        }),
        Form::Ecall => Some(Instr::Ecall),
        Form::Ebreak => Some(Instr::Ebreak),
        Form::Word | Form::Zero => None,
    }
}

fn twenty(number: Number) -> Imm20
    requires { values.within 0 1048575 number ≡ true }
    ensures { result ≡ values.bits 20 number }
{
    Imm20::new(number.bits(1 << 20))
}

fn twelve(number: Number) -> Imm12
    requires { values.within 2048 2047 number ≡ true }
    ensures { result ≡ values.bits 12 number }
{
    Imm12::new(number.bits(1 << 12))
}
