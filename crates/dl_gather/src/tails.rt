//! Good tails.
ghost use Rattle.std.specs.Prelude.{◌≡◌, ◌∷◌, [], Some, Ok, IfOk, IfErr, OnOk};
ghost use Rattle.dl_files.specs.Contents.{Contents};
ghost use Rattle.spec_program.specs.commands.Tail.{tail_at, tail_in};
ghost use Rattle.dl_gather.specs.Halts.{Halts, IsNotUsage, Refuses};

use crate::halt::Halt;
use crate::lines::log_line;
use crate::reading::read_file;
use dl_files::Files;
use dl_tail::{Tail, TailError, read_tail};
use spec_program::status::Refusal;
use std::alloc::Global;

/// The tail in the file `name`, which is read whole.
pub fn read_good_tail<F: Files>(alloc: Global, files: &mut F, name: &str) -> Result<Tail, Halt>
    ensures tail { IfOk result (λ tail. (m : Contents) → (F.seen files.old).known ≡ Some m
        → tail_at m name.now ≡ Ok tail) }
    ensures halt { IfErr result (Halts (λ m. tail_at m name.now) (λ m. name.now ∷ [])
        (F.seen files.old) (F.seen files.new)) }
    ensures usage { IfErr result IsNotUsage }
    ensures same { OnOk result (F.seen files.new ≡ F.seen files.old) }
{
    let bytes = read_file(alloc, files, name)?;
    good_tail(alloc, &bytes)
}

// The tail of these bytes; their first bad field is refused.
fn good_tail(alloc: Global, bytes: &[u8]) -> Result<Tail, Halt>
    ensures tail { IfOk result (λ tail. tail_in bytes.now ≡ Ok tail) }
    ensures halt { IfErr result (Refuses (tail_in bytes.now)) }
{
    match read_tail(alloc, bytes) {
        Ok(tail) => Ok(tail),
        Err(TailError::Malformed(fault)) => Err(Halt::Refused(
            Refusal::Grammar,
            log_line(alloc, 0, fault.number, fault.offset)?,
        )),
        Err(TailError::OutOfMemory) => Err(Halt::OutOfMemory),
    }
}
