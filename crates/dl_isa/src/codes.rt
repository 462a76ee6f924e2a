//! The codes of the operations: funct3 with funct7, or for an atomic one funct5.
ghost use Rattle.std.specs.Prelude.{◌≡◌, ℕ, ◌<◌, ◌^◌};
ghost use Rattle.spec_isa.specs.Encoding.{amo_code, branch_code, immediate_code, load_code, register_code, shift_code, store_code};

use spec_isa::instr::{AmoOp, BranchOp, ImmediateOp, LoadOp, RegisterOp, ShiftOp, StoreOp};

pub fn branch_funct3(op: BranchOp) -> u32
    ensures code { result ≡ branch_code op }
    ensures below { result < 2 ^ 3 }
{
    match op {
        BranchOp::Beq => 0,
        BranchOp::Bne => 1,
        BranchOp::Blt => 4,
        BranchOp::Bge => 5,
        BranchOp::Bltu => 6,
        BranchOp::Bgeu => 7,
    }
}

pub fn load_funct3(op: LoadOp) -> u32
    ensures code { result ≡ load_code op }
    ensures below { result < 2 ^ 3 }
{
    match op {
        LoadOp::Lb => 0,
        LoadOp::Lh => 1,
        LoadOp::Lw => 2,
        LoadOp::Lbu => 4,
        LoadOp::Lhu => 5,
    }
}

pub fn store_funct3(op: StoreOp) -> u32
    ensures code { result ≡ store_code op }
    ensures below { result < 2 ^ 3 }
{
    match op {
        StoreOp::Sb => 0,
        StoreOp::Sh => 1,
        StoreOp::Sw => 2,
    }
}

pub fn immediate_funct3(op: ImmediateOp) -> u32
    ensures code { result ≡ immediate_code op }
    ensures below { result < 2 ^ 3 }
{
    match op {
        ImmediateOp::Addi => 0,
        ImmediateOp::Slti => 2,
        ImmediateOp::Sltiu => 3,
        ImmediateOp::Xori => 4,
        ImmediateOp::Ori => 6,
        ImmediateOp::Andi => 7,
    }
}

/// funct3 and funct7.
pub fn shift_codes(op: ShiftOp) -> (u32, u32)
    ensures code { result ≡ shift_code op }
    ensures low { result.0 < 2 ^ 3 }
    ensures high { result.1 < 2 ^ 7 }
{
    match op {
        ShiftOp::Slli => (1, 0x00),
        ShiftOp::Srli => (5, 0x00),
        ShiftOp::Srai => (5, 0x20),
    }
}

/// funct3 and funct7.
pub fn register_codes(op: RegisterOp) -> (u32, u32)
    ensures code { result ≡ register_code op }
    ensures low { result.0 < 2 ^ 3 }
    ensures high { result.1 < 2 ^ 7 }
{
    match op {
        RegisterOp::Add => (0, 0x00),
        RegisterOp::Sub => (0, 0x20),
        RegisterOp::Sll => (1, 0x00),
        RegisterOp::Slt => (2, 0x00),
        RegisterOp::Sltu => (3, 0x00),
        RegisterOp::Xor => (4, 0x00),
        RegisterOp::Srl => (5, 0x00),
        RegisterOp::Sra => (5, 0x20),
        RegisterOp::Or => (6, 0x00),
        RegisterOp::And => (7, 0x00),
        RegisterOp::Mul => (0, 0x01),
        RegisterOp::Mulh => (1, 0x01),
        RegisterOp::Mulhsu => (2, 0x01),
        RegisterOp::Mulhu => (3, 0x01),
        RegisterOp::Div => (4, 0x01),
        RegisterOp::Divu => (5, 0x01),
        RegisterOp::Rem => (6, 0x01),
        RegisterOp::Remu => (7, 0x01),
    }
}

pub fn amo_funct5(op: AmoOp) -> u32
    ensures code { result ≡ amo_code op }
    ensures below { result < 2 ^ 5 }
{
    match op {
        AmoOp::Amoadd => 0x00,
        AmoOp::Amoswap => 0x01,
        AmoOp::Amoxor => 0x04,
        AmoOp::Amoor => 0x08,
        AmoOp::Amoand => 0x0C,
        AmoOp::Amomin => 0x10,
        AmoOp::Amomax => 0x14,
        AmoOp::Amominu => 0x18,
        AmoOp::Amomaxu => 0x1C,
    }
}
