//! From a number to the file of its image.
ghost use Rattle.std.specs.Prelude.{◌≡◌, ◌++◌, ℕ, Ok, Some, IfOk, OnOk, length, map};
ghost use Rattle.spec_isa.specs.Denoted.{denoted};
ghost use Rattle.spec_isa.specs.Encoding.{spelling};
ghost use Rattle.dl_elf.specs.Images.{IsSize};
ghost use Rattle.dl_elf.specs.Loading.{image_of};
ghost use Rattle.dl_asm.specs.File.{image_by};
ghost use Rattle.dl_make.specs.Generated.{made, program_of, words_of};

use crate::program::{adding, leaving, power, rounds, spawned, spawning};
use dl_asm::image_file;
use dl_entry::OutOfMemory;
use dl_isa::{Instr, encode};
use std::alloc::{AllocError, Global};

/// The file, in its short form, of the image that a number stands for. Every memory has room for that image.
pub fn make(alloc: Global, number: u32) -> Result<Vec<u8>, OutOfMemory>
    ensures bytes { IfOk result (λ file. file.items ≡ made number) }
    ensures length { IfOk result (λ file. length file.items ≡ 176) }
    ensures loaded { IfOk result (λ file. (size : ℕ) → IsSize size
        → image_of file.items size ≡ Ok (image_by (words_of number) size)) }
    ensures denoted { IfOk result (λ file. map denoted (words_of number) ≡ map Some (program_of number)) }
{
    let words = words(alloc, number)?;
    Ok(image_file(alloc, &words)?)
}

// The words of the program.
fn words(alloc: Global, number: u32) -> Result<Vec<u32>, AllocError>
    ensures value { IfOk result (λ words. words.items ≡ words_of number) }
    ensures denoted { IfOk result (λ words. map denoted words.items ≡ map Some (program_of number)) }
{
    let mut words = Vec::new(alloc);
    append_words(&mut words, &spawning(spawned(number)))?;
    append_words(&mut words, &adding(power(number), rounds(number)))?;
    append_words(&mut words, &leaving())?;
    Ok(words)
}

fn append_words(words: &mut Vec<u32>, program: &[Instr]) -> Result<(), AllocError>
    ensures words { OnOk result (words.new.items ≡ words.old.items ++ map spelling program.now) }
    ensures denoted { OnOk result (map denoted words.new.items ≡ map denoted words.old.items ++ map Some program.now) }
{
    for instr in program {
        words.push(encode(instr))?;
    }
    Ok(())
}
