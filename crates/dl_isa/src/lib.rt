//! The instructions of RV32IMA with FENCE.I and their words: `decode` reads a word, `encode` writes one.
#![tactic(auto)]

mod codes;
mod decoding;
mod encoding;
mod laws;
mod tables;
mod word;

pub use decoding::decode;
pub use encoding::encode;
pub use laws::{redecoded, respelled};
pub use spec_isa::field::{Imm12, Imm20, Reg};
pub use spec_isa::instr::{
    AmoOp, BranchOp, ImmediateOp, Instr, LoadOp, RegisterOp, ShiftOp, StoreOp,
};
