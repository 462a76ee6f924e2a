//! Answers to questions about one word of a walked log: which commits stored to it, and when it first had another value.
#![tactic(auto)]

mod image_word;
mod queries;
mod text;

pub use dl_elf::Image;
pub use dl_entry::{End, OutOfMemory};
pub use dl_serial::Walked;
pub use image_word::word_of;
pub use queries::{Lines, watch, when, who};
pub use spec_query::{Line, When};
pub use text::{end_text, last_text, lines_text, when_text};
