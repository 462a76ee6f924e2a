//! The instructions of the program, by the numbers of their registers.
ghost use Rattle.std.specs.Prelude.{◌≡◌, ◌<◌, ◌≤◌, ◌^◌};
ghost use Rattle.dl_make.specs.Generated as generated;

use dl_isa::{
    AmoOp, BranchOp, Imm12, ImmediateOp, Instr, LoadOp, Reg, RegisterOp, ShiftOp, StoreOp,
};

pub fn addi(rd: u32, rs1: u32, imm: u32) -> Instr
    requires rd { rd < 2 ^ 5 }
    requires rs1 { rs1 < 2 ^ 5 }
    requires imm { imm < 2 ^ 12 }
    ensures { result ≡ generated.addi rd rs1 imm }
{
    Instr::Immediate {
        op: ImmediateOp::Addi,
        rd: Reg::new(rd),
        rs1: Reg::new(rs1),
        imm: Imm12::new(imm),
    }
}

pub fn slli(rd: u32, rs1: u32, amount: u32) -> Instr
    requires rd { rd < 2 ^ 5 }
    requires rs1 { rs1 < 2 ^ 5 }
    requires amount { amount < 2 ^ 5 }
    ensures { result ≡ generated.slli rd rs1 amount }
{
    Instr::Shift {
        op: ShiftOp::Slli,
        rd: Reg::new(rd),
        rs1: Reg::new(rs1),
        amount: Reg::new(amount),
    }
}

pub fn add(rd: u32, rs1: u32, rs2: u32) -> Instr
    requires rd { rd < 2 ^ 5 }
    requires rs1 { rs1 < 2 ^ 5 }
    requires rs2 { rs2 < 2 ^ 5 }
    ensures { result ≡ generated.add rd rs1 rs2 }
{
    Instr::Register {
        op: RegisterOp::Add,
        rd: Reg::new(rd),
        rs1: Reg::new(rs1),
        rs2: Reg::new(rs2),
    }
}

/// With the offset 0.
pub fn lw(rd: u32, rs1: u32) -> Instr
    requires rd { rd < 2 ^ 5 }
    requires rs1 { rs1 < 2 ^ 5 }
    ensures { result ≡ generated.lw rd 0 rs1 }
{
    Instr::Load {
        op: LoadOp::Lw,
        rd: Reg::new(rd),
        rs1: Reg::new(rs1),
        offset: Imm12::new(0),
    }
}

/// With the offset 0.
pub fn sw(rs2: u32, rs1: u32) -> Instr
    requires rs2 { rs2 < 2 ^ 5 }
    requires rs1 { rs1 < 2 ^ 5 }
    ensures { result ≡ generated.sw rs2 0 rs1 }
{
    Instr::Store {
        op: StoreOp::Sw,
        rs1: Reg::new(rs1),
        rs2: Reg::new(rs2),
        offset: Imm12::new(0),
    }
}

/// Back by that many bytes while the register isn't 0.
pub fn bne_back(rs1: u32, distance: u32) -> Instr
    requires rs1 { rs1 < 2 ^ 5 }
    requires some { 0 < distance }
    requires most { distance ≤ 2 ^ 12 }
    ensures { result ≡ generated.bne_back rs1 0 distance }
{
    Instr::Branch {
        op: BranchOp::Bne,
        rs1: Reg::new(rs1),
        rs2: Reg::new(0),
        offset: Imm12::new(((1 << 13) - distance) / 2),
    }
}

pub fn amoadd(rd: u32, rs2: u32, rs1: u32) -> Instr
    requires rd { rd < 2 ^ 5 }
    requires rs2 { rs2 < 2 ^ 5 }
    requires rs1 { rs1 < 2 ^ 5 }
    ensures { result ≡ generated.amoadd rd rs2 rs1 }
{
    Instr::Amo {
        op: AmoOp::Amoadd,
        rd: Reg::new(rd),
        rs1: Reg::new(rs1),
        rs2: Reg::new(rs2),
        acquire: false,
        release: false,
    }
}
