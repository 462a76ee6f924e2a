//! From words to instructions, by opcode.
ghost use Rattle.std.specs.Prelude.{◌≡◌, Some};
ghost use Rattle.spec_isa.specs.Denoted.{denoted};
ghost use Rattle.spec_isa.specs.Encoding.{Denotes, IsMeaning};
ghost use Rattle.dl_isa.specs.Places.{amo_in, atomic_under, funct5_of, instr_under, opcode_of, shift_in};

use crate::tables::{amo_of, branch_of, immediate_of, load_of, register_of, shift_of, store_of};
use crate::word::Word;
use spec_isa::instr::Instr;

/// The instruction that a word denotes, or none if it is outside the table.
#[inline(always)]
pub fn decode(w: u32) -> Option<Instr>
    ensures value { result ≡ denoted w }
    ensures meaning { IsMeaning w result }
    ensures only { (i : Instr) → Denotes w i → result ≡ Some i }
{
    by_opcode(Word(w))
}

#[inline(always)]
fn by_opcode(w: Word) -> Option<Instr>
    ensures { result ≡ denoted w.0 }
{
    match w.opcode() {
        0x37 => Some(Instr::Lui {
            rd: w.rd(),
            imm: w.upper(),
        }),
        0x17 => Some(Instr::Auipc {
            rd: w.rd(),
            imm: w.upper(),
        }),
        0x6F => Some(Instr::Jal {
            rd: w.rd(),
            offset: w.jump_offset(),
        }),
        0x67 => jump_register(w),
        0x63 => branch(w),
        0x03 => load(w),
        0x23 => store(w),
        0x13 => immediate(w),
        0x33 => register(w),
        0x0F => fence(w),
        0x2F => atomic(w),
        0x73 => system(w),
        _ => None,
    }
}

fn jump_register(w: Word) -> Option<Instr>
    ensures { result ≡ instr_under 0x67 w.0 }
{
    match w.funct3() {
        0 => Some(Instr::Jalr {
            rd: w.rd(),
            rs1: w.rs1(),
            offset: w.immediate(),
        }),
        _ => None,
    }
}

#[inline(always)]
fn branch(w: Word) -> Option<Instr>
    ensures { result ≡ instr_under 0x63 w.0 }
{
    let op = branch_of(w.funct3())?;
    Some(Instr::Branch {
        op,
        rs1: w.rs1(),
        rs2: w.rs2(),
        offset: w.branch_offset(),
    })
}

#[inline(always)]
fn load(w: Word) -> Option<Instr>
    ensures { result ≡ instr_under 0x03 w.0 }
{
    let op = load_of(w.funct3())?;
    Some(Instr::Load {
        op,
        rd: w.rd(),
        rs1: w.rs1(),
        offset: w.immediate(),
    })
}

#[inline(always)]
fn store(w: Word) -> Option<Instr>
    ensures { result ≡ instr_under 0x23 w.0 }
{
    let op = store_of(w.funct3())?;
    Some(Instr::Store {
        op,
        rs1: w.rs1(),
        rs2: w.rs2(),
        offset: w.store_offset(),
    })
}

#[inline(always)]
fn immediate(w: Word) -> Option<Instr>
    ensures { result ≡ instr_under 0x13 w.0 }
{
    match immediate_of(w.funct3()) {
        Some(op) => Some(Instr::Immediate {
            op,
            rd: w.rd(),
            rs1: w.rs1(),
            imm: w.immediate(),
        }),
        None => shift(w),
    }
}

#[inline(always)]
fn shift(w: Word) -> Option<Instr>
    ensures { result ≡ shift_in w.0 }
{
    let op = shift_of(w.funct3(), w.funct7())?;
    Some(Instr::Shift {
        op,
        rd: w.rd(),
        rs1: w.rs1(),
        amount: w.rs2(),
    })
}

#[inline(always)]
fn register(w: Word) -> Option<Instr>
    ensures { result ≡ instr_under 0x33 w.0 }
{
    let op = register_of(w.funct3(), w.funct7())?;
    Some(Instr::Register {
        op,
        rd: w.rd(),
        rs1: w.rs1(),
        rs2: w.rs2(),
    })
}

fn fence(w: Word) -> Option<Instr>
    ensures { result ≡ instr_under 0x0F w.0 }
{
    match w.funct3() {
        0 => Some(Instr::Fence {
            rd: w.rd(),
            rs1: w.rs1(),
            imm: w.immediate(),
        }),
        1 => Some(Instr::FenceI {
            rd: w.rd(),
            rs1: w.rs1(),
            imm: w.immediate(),
        }),
        _ => None,
    }
}

fn atomic(w: Word) -> Option<Instr>
    ensures { result ≡ instr_under 0x2F w.0 }
{
    match w.funct3() {
        2 => atomic_word(w),
        _ => None,
    }
}

fn atomic_word(w: Word) -> Option<Instr>
    ensures { result ≡ atomic_under (funct5_of w.0) w.0 }
{
    match w.funct5() {
        0x02 => load_reserved(w),
        0x03 => Some(store_conditional(w)),
        _ => amo(w),
    }
}

// There is no second register: its field is 0.
fn load_reserved(w: Word) -> Option<Instr>
    ensures { result ≡ atomic_under 0x02 w.0 }
{
    match w.rs2().number() {
        0 => Some(Instr::LoadReserved {
            rd: w.rd(),
            rs1: w.rs1(),
            acquire: w.acquire(),
            release: w.release(),
        }),
        _ => None,
    }
}

fn store_conditional(w: Word) -> Instr
    ensures { Some result ≡ atomic_under 0x03 w.0 }
{
    Instr::StoreConditional {
        rd: w.rd(),
        rs1: w.rs1(),
        rs2: w.rs2(),
        acquire: w.acquire(),
        release: w.release(),
    }
}

fn amo(w: Word) -> Option<Instr>
    ensures { result ≡ amo_in w.0 }
{
    let op = amo_of(w.funct5())?;
    Some(Instr::Amo {
        op,
        rd: w.rd(),
        rs1: w.rs1(),
        rs2: w.rs2(),
        acquire: w.acquire(),
        release: w.release(),
    })
}

// Only two words of the opcode are in the table.
fn system(w: Word) -> Option<Instr>
    requires { opcode_of w.0 ≡ 0x73 }
    ensures { result ≡ denoted w.0 }
{
    match w.0 {
        0x0000_0073 => Some(Instr::Ecall),
        0x0010_0073 => Some(Instr::Ebreak),
        _ => None,
    }
}
