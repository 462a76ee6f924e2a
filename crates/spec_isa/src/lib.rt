//! The instruction set RV32IMA as definitions: instructions and their words, threads, memory and stores, one
//! instruction, and a run of them; with the plain types that these use.
#![tactic(auto)]

pub mod field;
pub mod instr;
pub mod numbers;
pub mod operation;
pub mod thread;
