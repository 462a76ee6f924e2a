//! An assembler: from the text of a program to the file of its image.
#![tactic(auto)]

mod assembling;
mod character;
mod checking;
mod code;
pub mod error;
mod fields;
mod file;
mod form;
mod labels;
mod line;
mod mnemonic;
mod number;
mod operand;
mod operands;
mod register;
mod statement;
mod text;
mod value;

pub use assembling::assemble;
pub use error::{AsmError, Rule};
pub use file::image_file;
