//! The file of an image in its short form.
ghost use Rattle.std.specs.Prelude.{◌≡◌, ◌≤◌, ℕ, Ok, IfOk, OnOk, ◌++◌, length};
ghost use Rattle.dl_elf.specs.Images.{IsSize};
ghost use Rattle.dl_elf.specs.Loading.{image_of};
ghost use Rattle.dl_asm.specs.File.{file_of, code_of, image_by};

use std::alloc::{AllocError, Global};

// Header, and program header up to the sizes: the file from byte 84 on is loaded to address 0.
const FRONT: [u8; 68] = [
    0x7F, 0x45, 0x4C, 0x46, 1, 1, 1, 0, 0, 0, 0, 0, 0, 0, 0, 0, 2, 0, 0xF3, 0, 1, 0, 0, 0, 0, 0, 0,
    0, 0x34, 0, 0, 0, 0, 0, 0, 0, 0, 0, 0, 0, 0x34, 0, 0x20, 0, 1, 0, 0, 0, 0, 0, 0, 0, 1, 0, 0, 0,
    0x54, 0, 0, 0, 0, 0, 0, 0, 0, 0, 0, 0,
];

// What follows the sizes.
const ALLOWED: [u8; 8] = [7, 0, 0, 0, 4, 0, 0, 0];

/// The file whose image is the words from address 0 on.
pub fn image_file(alloc: Global, words: &[u32]) -> Result<Vec<u8>, AllocError>
    requires { length words.now ≤ 4194304 }
    ensures bytes { IfOk result (λ file. file.items ≡ file_of words.now) }
    ensures loaded { IfOk result (λ file. (size : ℕ) → IsSize size → length (code_of words.now) ≤ size
        → image_of file.items size ≡ Ok (image_by words.now size)) }
{
    let size = (4 * words.len()) as u32;
    let mut file = Vec::from_slice(alloc, &FRONT)?;
    file.extend_from_slice(&size.to_le_bytes())?;
    file.extend_from_slice(&size.to_le_bytes())?;
    file.extend_from_slice(&ALLOWED)?;
    append_words(&mut file, words)?;
    Ok(file)
}

fn append_words(file: &mut Vec<u8>, words: &[u32]) -> Result<(), AllocError>
    ensures { OnOk result (file.new.items ≡ file.old.items ++ code_of words.now) }
{
    for word in words {
        file.extend_from_slice(&word.to_le_bytes())?;
    }
    Ok(())
}
