//! The sixty instructions of RV32IMA with FENCE.I, by the names of the ISA manual; each with all its fields.
use crate::field::{Imm12, Imm20, Reg};

/// A conditional branch's comparison.
#[derive(Clone, Copy, Debug, PartialEq, Eq)]
pub enum BranchOp {
    Beq,
    Bne,
    Blt,
    Bge,
    Bltu,
    Bgeu,
}

/// A load's width, and whether it extends the sign.
#[derive(Clone, Copy, Debug, PartialEq, Eq)]
pub enum LoadOp {
    Lb,
    Lh,
    Lw,
    Lbu,
    Lhu,
}

/// A store's width.
#[derive(Clone, Copy, Debug, PartialEq, Eq)]
pub enum StoreOp {
    Sb,
    Sh,
    Sw,
}

/// An operation on a register and an immediate.
#[derive(Clone, Copy, Debug, PartialEq, Eq)]
pub enum ImmediateOp {
    Addi,
    Slti,
    Sltiu,
    Xori,
    Ori,
    Andi,
}

/// A shift by a constant.
#[derive(Clone, Copy, Debug, PartialEq, Eq)]
pub enum ShiftOp {
    Slli,
    Srli,
    Srai,
}

/// An operation on two registers.
#[derive(Clone, Copy, Debug, PartialEq, Eq)]
pub enum RegisterOp {
    Add,
    Sub,
    Sll,
    Slt,
    Sltu,
    Xor,
    Srl,
    Sra,
    Or,
    And,
    Mul,
    Mulh,
    Mulhsu,
    Mulhu,
    Div,
    Divu,
    Rem,
    Remu,
}

/// An atomic operation on a word of memory.
#[derive(Clone, Copy, Debug, PartialEq, Eq)]
pub enum AmoOp {
    Amoadd,
    Amoswap,
    Amoxor,
    Amoor,
    Amoand,
    Amomin,
    Amomax,
    Amominu,
    Amomaxu,
}

/// An instruction. The offsets of branches and jumps leave out their lowest bit, which is always 0.
#[derive(Clone, Copy, Debug, PartialEq, Eq)]
pub enum Instr {
    Lui {
        rd: Reg,
        imm: Imm20,
    },
    Auipc {
        rd: Reg,
        imm: Imm20,
    },
    Jal {
        rd: Reg,
        offset: Imm20,
    },
    Jalr {
        rd: Reg,
        rs1: Reg,
        offset: Imm12,
    },
    Branch {
        op: BranchOp,
        rs1: Reg,
        rs2: Reg,
        offset: Imm12,
    },
    Load {
        op: LoadOp,
        rd: Reg,
        rs1: Reg,
        offset: Imm12,
    },
    Store {
        op: StoreOp,
        rs1: Reg,
        rs2: Reg,
        offset: Imm12,
    },
    Immediate {
        op: ImmediateOp,
        rd: Reg,
        rs1: Reg,
        imm: Imm12,
    },
    Shift {
        op: ShiftOp,
        rd: Reg,
        rs1: Reg,
        amount: Reg,
    },
    Register {
        op: RegisterOp,
        rd: Reg,
        rs1: Reg,
        rs2: Reg,
    },
    Fence {
        rd: Reg,
        rs1: Reg,
        imm: Imm12,
    },
    FenceI {
        rd: Reg,
        rs1: Reg,
        imm: Imm12,
    },
    Ecall,
    Ebreak,
    LoadReserved {
        rd: Reg,
        rs1: Reg,
        acquire: bool,
        release: bool,
    },
    StoreConditional {
        rd: Reg,
        rs1: Reg,
        rs2: Reg,
        acquire: bool,
        release: bool,
    },
    Amo {
        op: AmoOp,
        rd: Reg,
        rs1: Reg,
        rs2: Reg,
        acquire: bool,
        release: bool,
    },
}
