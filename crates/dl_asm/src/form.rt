//! What a statement is, by its mnemonic alone.
use spec_isa::instr::{AmoOp, BranchOp, ImmediateOp, LoadOp, RegisterOp, ShiftOp, StoreOp};

/// The bits aq and rl of an atomic instruction.
#[derive(Clone, Copy)]
pub struct Order {
    pub acquire: bool,
    pub release: bool,
}

/// An instruction without its operands, or words of data.
#[derive(Clone, Copy)]
pub enum Form {
    Register(RegisterOp),
    Immediate(ImmediateOp),
    Shift(ShiftOp),
    Load(LoadOp),
    Store(StoreOp),
    Branch(BranchOp),
    Lui,
    Auipc,
    Jal,
    Jalr,
    Fence,
    FenceI,
    Ecall,
    Ebreak,
    LoadReserved(Order),
    StoreConditional(Order),
    Amo(AmoOp, Order),
    /// `.word`: one word.
    Word,
    /// `.zero`: words of 0.
    Zero,
}
