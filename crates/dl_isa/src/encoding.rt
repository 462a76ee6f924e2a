//! From instructions to words: a low part of opcode, rd, funct3 and rs1, and a high part of twelve bits.
ghost use Rattle.std.specs.Prelude.{◌≡◌, ℕ, ◌+◌, ◌*◌, ◌<◌, ◌^◌, Some};
ghost use Rattle.spec_isa.specs.Denoted.{denoted};
ghost use Rattle.spec_isa.specs.Encoding.{atomic, branch_code, branch_word, Denotes, jump_word, store_code, store_word, upper_word};

use crate::codes::{
    amo_funct5, branch_funct3, immediate_funct3, load_funct3, register_codes, shift_codes,
    store_funct3,
};
use spec_isa::field::{Imm12, Imm20, Reg};
use spec_isa::instr::{BranchOp, Instr, StoreOp};

/// The word that denotes an instruction.
pub fn encode(i: &Instr) -> u32
    ensures denotes { Denotes result i.now }
    ensures back { denoted result ≡ Some i.now }
{
    spelled(*i)
}

fn spelled(i: Instr) -> u32
    ensures { Denotes result i }
{
    match i {
        Instr::Lui { rd, imm } => upper(0x37, rd, imm),
        Instr::Auipc { rd, imm } => upper(0x17, rd, imm),
        Instr::Jal { rd, offset } => jump(rd, offset),
        Instr::Jalr { rd, rs1, offset } => low(0x67, rd, 0, rs1) + high(offset),
        Instr::Branch {
            op,
            rs1,
            rs2,
            offset,
        } => branch(op, rs1, rs2, offset),
        Instr::Load {
            op,
            rd,
            rs1,
            offset,
        } => low(0x03, rd, load_funct3(op), rs1) + high(offset),
        Instr::Store {
            op,
            rs1,
            rs2,
            offset,
        } => store(op, rs1, rs2, offset),
        Instr::Immediate { op, rd, rs1, imm } => low(0x13, rd, immediate_funct3(op), rs1)
            + high(imm),
        Instr::Shift {
            op,
            rd,
            rs1,
            amount,
        } => {
            let (funct3, funct7) = shift_codes(op);
            low(0x13, rd, funct3, rs1) + high_fields(amount, funct7)
        }
        Instr::Register { op, rd, rs1, rs2 } => {
            let (funct3, funct7) = register_codes(op);
            low(0x33, rd, funct3, rs1) + high_fields(rs2, funct7)
        }
        Instr::Fence { rd, rs1, imm } => low(0x0F, rd, 0, rs1) + high(imm),
        Instr::FenceI { rd, rs1, imm } => low(0x0F, rd, 1, rs1) + high(imm),
        Instr::Ecall => 0x0000_0073,
        Instr::Ebreak => 0x0010_0073,
        Instr::LoadReserved {
            rd,
            rs1,
            acquire,
            release,
        } => {
            low(0x2F, rd, 2, rs1) + high_fields(Reg::new(0), atomic_funct7(0x02, acquire, release))
        }
        Instr::StoreConditional {
            rd,
            rs1,
            rs2,
            acquire,
            release,
        } => { low(0x2F, rd, 2, rs1) + high_fields(rs2, atomic_funct7(0x03, acquire, release)) }
        Instr::Amo {
            op,
            rd,
            rs1,
            rs2,
            acquire,
            release,
        } => {
            low(0x2F, rd, 2, rs1)
                + high_fields(rs2, atomic_funct7(amo_funct5(op), acquire, release))
        }
    }
}

// The low twenty bits. Branches and stores have five bits of their offset in rd's place.
fn low(opcode: u32, rd: Reg, funct3: u32, rs1: Reg) -> u32
    requires opcode_fits { opcode < 2 ^ 7 }
    requires funct3_fits { funct3 < 2 ^ 3 }
    ensures value { result ≡ opcode + rd * 2 ^ 7 + funct3 * 2 ^ 12 + rs1 * 2 ^ 15 }
    ensures below { result < 2 ^ 20 }
{
    opcode + (rd.number() << 7) + (funct3 << 12) + (rs1.number() << 15)
}

// The high twelve bits as an immediate.
fn high(imm: Imm12) -> u32
    ensures { result ≡ imm * 2 ^ 20 }
{
    imm.bits() << 20
}

// The high twelve bits as rs2 and funct7.
fn high_fields(rs2: Reg, funct7: u32) -> u32
    requires { funct7 < 2 ^ 7 }
    ensures { result ≡ rs2 * 2 ^ 20 + funct7 * 2 ^ 25 }
{
    (rs2.number() << 20) + (funct7 << 25)
}

fn upper(opcode: u32, rd: Reg, imm: Imm20) -> u32
    requires { opcode < 2 ^ 7 }
    ensures { result ≡ upper_word opcode rd imm }
{
    opcode + (rd.number() << 7) + (imm.bits() << 12)
}

fn jump(rd: Reg, offset: Imm20) -> u32
    ensures { result ≡ jump_word 0x6F rd offset }
{
    let bit_19 = offset.bits() >> 19;
    let bits_18_to_11 = offset.bits() >> 11 & 0xFF;
    let bit_10 = offset.bits() >> 10 & 1;
    let bits_9_to_0 = offset.bits() & 0x3FF;
    let imm = Imm20::new((bit_19 << 19) + (bits_9_to_0 << 9) + (bit_10 << 8) + bits_18_to_11);
    upper(0x6F, rd, imm)
}

fn branch(op: BranchOp, rs1: Reg, rs2: Reg, offset: Imm12) -> u32
    ensures { result ≡ branch_word 0x63 (branch_code op) rs1 rs2 offset }
{
    let bit_11 = offset.bits() >> 11;
    let bit_10 = offset.bits() >> 10 & 1;
    let bits_9_to_4 = offset.bits() >> 4 & 0x3F;
    let bits_3_to_0 = offset.bits() & 0xF;
    let rd = Reg::new((bits_3_to_0 << 1) + bit_10);
    let funct7 = (bit_11 << 6) + bits_9_to_4;
    low(0x63, rd, branch_funct3(op), rs1) + high_fields(rs2, funct7)
}

fn store(op: StoreOp, rs1: Reg, rs2: Reg, offset: Imm12) -> u32
    ensures { result ≡ store_word 0x23 (store_code op) rs1 rs2 offset }
{
    let rd = Reg::new(offset.bits() & 0x1F);
    let funct7 = offset.bits() >> 5;
    low(0x23, rd, store_funct3(op), rs1) + high_fields(rs2, funct7)
}

// funct5, aq and rl.
fn atomic_funct7(funct5: u32, acquire: bool, release: bool) -> u32
    requires { funct5 < 2 ^ 5 }
    ensures value { result ≡ atomic funct5 acquire release }
    ensures below { result < 2 ^ 7 }
{
    (funct5 << 2) + (u32::from(acquire) << 1) + u32::from(release)
}
