//! Reading a file, as bytes, as a log or as a script.
ghost use Rattle.std.specs.Prelude.{◌≡◌, ◌≤◌, ◌^◌, ◌∷◌, [], length, Some, Ok, IfOk, IfErr, OnOk};
ghost use Rattle.dl_files.specs.Contents.{Contents};
ghost use Rattle.dl_logio.specs.Files.{read_view};
ghost use Rattle.spec_program.specs.Files.{log_at, read_at, script_at};
ghost use Rattle.dl_gather.specs.Halts.{HaltsAt, Unread};
ghost use Rattle.dl_scriptio.specs.Files.{read_view as script_view};

use crate::halt::Halt;
use crate::lines::{absent_line, fault_line};
use dl_files::{FileError, Files};
use dl_logio::{LogRead, read_log_file};
use dl_scriptio::{ScriptRead, read_script_file};
use spec_program::status::Refusal;
use std::alloc::Global;

/// The bytes of the file `name`.
pub fn read_file<F: Files>(alloc: Global, files: &mut F, name: &str) -> Result<Vec<u8>, Halt>
    ensures bytes { IfOk result (λ bytes. (m : Contents) → (F.seen files.old).known ≡ Some m
        → read_at m name.now ≡ Ok bytes.items) }
    ensures halt { IfErr result (Unread (name.now ∷ []) (λ m. read_at m name.now)
        (F.seen files.old) (F.seen files.new)) }
    ensures same { OnOk result (F.seen files.new ≡ F.seen files.old) }
{
    match files.read(alloc, name) {
        Ok(bytes) => Ok(bytes),
        Err(error) => Err(unread(alloc, name, error)),
    }
}

/// What the file `name` says as a log. It is read piece after piece, and nothing after a field that isn't good.
pub fn read_log<F: Files>(alloc: Global, files: &mut F, name: &str) -> Result<LogRead, Halt>
    ensures read { IfOk result (λ r. (m : Contents) → (F.seen files.old).known ≡ Some m
        → log_at m name.now ≡ Ok (read_view r)) }
    ensures halt { IfErr result (Unread (name.now ∷ []) (λ m. log_at m name.now)
        (F.seen files.old) (F.seen files.new)) }
    ensures same { OnOk result (F.seen files.new ≡ F.seen files.old) }
{
    match read_log_file(alloc, files, name) {
        Ok(read) => Ok(read),
        Err(error) => Err(unread(alloc, name, error)),
    }
}

/// What the file `name` says as a script. It is read piece after piece, and nothing after a line that is refused.
pub fn read_script<F: Files>(alloc: Global, files: &mut F, name: &str) -> Result<ScriptRead, Halt>
    ensures read { IfOk result (λ r. (m : Contents) → (F.seen files.old).known ≡ Some m
        → script_at m name.now ≡ Ok (script_view r)) }
    ensures few { IfOk result (λ r. IfOk (script_view r) (λ events. length events ≤ 2 ^ 24)) }
    ensures halt { IfErr result (Unread (name.now ∷ []) (λ m. script_at m name.now)
        (F.seen files.old) (F.seen files.new)) }
    ensures same { OnOk result (F.seen files.new ≡ F.seen files.old) }
{
    match read_script_file(alloc, files, name) {
        Ok(read) => Ok(read),
        Err(error) => Err(unread(alloc, name, error)),
    }
}

// Why a command halts at a file that could not be read.
fn unread(alloc: Global, name: &str, error: FileError) -> Halt
    ensures { HaltsAt name.now error result }
{
    match error {
        FileError::Absent => match absent_line(alloc, name) {
            Ok(line) => Halt::Refused(Refusal::Absent, line),
            Err(_) => Halt::OutOfMemory,
        },
        FileError::Failed => match fault_line(alloc, name) {
            Ok(line) => Halt::Fault(line),
            Err(_) => Halt::OutOfMemory,
        },
        FileError::OutOfMemory => Halt::OutOfMemory,
    }
}
