//! From a source to its file.
ghost use Rattle.std.specs.Prelude.{IfErr, IfOk};
ghost use Rattle.dl_asm.specs.Promise.{Assembles, Refuses};

use crate::code::code;
use crate::error::AsmError;
use crate::file::image_file;
use crate::labels::labels_of;
use std::alloc::Global;

/// The file of the image that a source asks for, in its short form. `Refused` is the first line, counted from 1, that
/// breaks a rule, with the first rule that it breaks.
pub fn assemble(alloc: Global, source: &[u8]) -> Result<Vec<u8>, AsmError>
    ensures assembled { IfOk result (λ file. Assembles source.now file.items) }
    ensures refused { IfErr result (Refuses source.now) }
{
    let Ok(labels) = labels_of(alloc, source) else {
        return Err(AsmError::OutOfMemory);
    };
    let words = match code(alloc, source, &labels) {
        Ok(words) => words,
        Err(error) => return Err(error),
    };
    match image_file(alloc, &words) {
        Ok(file) => Ok(file),
        Err(_) => Err(AsmError::OutOfMemory),
    }
}
