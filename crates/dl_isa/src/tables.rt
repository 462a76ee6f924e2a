//! The operations by their codes.
ghost use Rattle.std.specs.Prelude.{◌≡◌, ℕ};
ghost use Rattle.spec_isa.specs.Denoted.{branch_op, load_op, store_op, immediate_op, shift_op, register_op, amo_op};

use spec_isa::instr::{AmoOp, BranchOp, ImmediateOp, LoadOp, RegisterOp, ShiftOp, StoreOp};

pub fn branch_of(funct3: u32) -> Option<BranchOp>
    ensures { result ≡ branch_op funct3 }
{
    match funct3 {
        0 => Some(BranchOp::Beq),
        1 => Some(BranchOp::Bne),
        4 => Some(BranchOp::Blt),
        5 => Some(BranchOp::Bge),
        6 => Some(BranchOp::Bltu),
        7 => Some(BranchOp::Bgeu),
        _ => None,
    }
}

pub fn load_of(funct3: u32) -> Option<LoadOp>
    ensures { result ≡ load_op funct3 }
{
    match funct3 {
        0 => Some(LoadOp::Lb),
        1 => Some(LoadOp::Lh),
        2 => Some(LoadOp::Lw),
        4 => Some(LoadOp::Lbu),
        5 => Some(LoadOp::Lhu),
        _ => None,
    }
}

pub fn store_of(funct3: u32) -> Option<StoreOp>
    ensures { result ≡ store_op funct3 }
{
    match funct3 {
        0 => Some(StoreOp::Sb),
        1 => Some(StoreOp::Sh),
        2 => Some(StoreOp::Sw),
        _ => None,
    }
}

pub fn immediate_of(funct3: u32) -> Option<ImmediateOp>
    ensures { result ≡ immediate_op funct3 }
{
    match funct3 {
        0 => Some(ImmediateOp::Addi),
        2 => Some(ImmediateOp::Slti),
        3 => Some(ImmediateOp::Sltiu),
        4 => Some(ImmediateOp::Xori),
        6 => Some(ImmediateOp::Ori),
        7 => Some(ImmediateOp::Andi),
        _ => None,
    }
}

pub fn shift_of(funct3: u32, funct7: u32) -> Option<ShiftOp>
    ensures { result ≡ shift_op funct3 funct7 }
{
    match (funct3, funct7) {
        (1, 0x00) => Some(ShiftOp::Slli),
        (5, 0x00) => Some(ShiftOp::Srli),
        (5, 0x20) => Some(ShiftOp::Srai),
        _ => None,
    }
}

pub fn register_of(funct3: u32, funct7: u32) -> Option<RegisterOp>
    ensures { result ≡ register_op funct3 funct7 }
{
    match (funct3, funct7) {
        (0, 0x00) => Some(RegisterOp::Add),
        (0, 0x20) => Some(RegisterOp::Sub),
        (1, 0x00) => Some(RegisterOp::Sll),
        (2, 0x00) => Some(RegisterOp::Slt),
        (3, 0x00) => Some(RegisterOp::Sltu),
        (4, 0x00) => Some(RegisterOp::Xor),
        (5, 0x00) => Some(RegisterOp::Srl),
        (5, 0x20) => Some(RegisterOp::Sra),
        (6, 0x00) => Some(RegisterOp::Or),
        (7, 0x00) => Some(RegisterOp::And),
        (0, 0x01) => Some(RegisterOp::Mul),
        (1, 0x01) => Some(RegisterOp::Mulh),
        (2, 0x01) => Some(RegisterOp::Mulhsu),
        (3, 0x01) => Some(RegisterOp::Mulhu),
        (4, 0x01) => Some(RegisterOp::Div),
        (5, 0x01) => Some(RegisterOp::Divu),
        (6, 0x01) => Some(RegisterOp::Rem),
        (7, 0x01) => Some(RegisterOp::Remu),
        _ => None,
    }
}

pub fn amo_of(funct5: u32) -> Option<AmoOp>
    ensures { result ≡ amo_op funct5 }
{
    match funct5 {
        0x00 => Some(AmoOp::Amoadd),
        0x01 => Some(AmoOp::Amoswap),
        0x04 => Some(AmoOp::Amoxor),
        0x08 => Some(AmoOp::Amoor),
        0x0C => Some(AmoOp::Amoand),
        0x10 => Some(AmoOp::Amomin),
        0x14 => Some(AmoOp::Amomax),
        0x18 => Some(AmoOp::Amominu),
        0x1C => Some(AmoOp::Amomaxu),
        _ => None,
    }
}
