//! The operation of an instruction: what it is to do, once its registers are read.
use crate::field::Reg;
use crate::instr::{AmoOp, LoadOp, StoreOp};
use crate::thread::Kind;

/// What is to be done. Only doing it may still look at memory.
#[derive(Clone, Copy, Debug, PartialEq, Eq)]
pub enum Operation {
    /// `rd` takes the value, and the thread goes on at `pc`.
    Go {
        rd: Reg,
        value: u32,
        pc: u32,
    },
    /// It is serial.
    Stop(Kind),
    Load {
        op: LoadOp,
        rd: Reg,
        addr: u32,
    },
    Store {
        op: StoreOp,
        addr: u32,
        value: u32,
    },
    LoadReserved {
        rd: Reg,
        addr: u32,
    },
    StoreConditional {
        rd: Reg,
        addr: u32,
        value: u32,
    },
    Amo {
        op: AmoOp,
        rd: Reg,
        addr: u32,
        value: u32,
    },
}
