//! A script read from its file.
ghost use Rattle.std.specs.Prelude.{◌≡◌, ◌≤◌, ◌^◌, List, length, max, Result, IfOk, IfErr, OnOk};
ghost use Rattle.dl_event.specs.Script.{script_of};
ghost use Rattle.dl_event.specs.declared.error.ScriptError.{ScriptError};
ghost use Rattle.dl_files.specs.Seen.{ReadStops};
ghost use Rattle.spec_protocol.specs.declared.event.Event.{Event};
ghost use Rattle.dl_scriptio.specs.Files.{IsReadAs, SaysScript, read_view};

use crate::PIECE;
use dl_event::{Events, ScriptError, ScriptReader, parse_script};
use dl_files::{Beginning, FileError, Files};
use std::alloc::Global;

/// A script of more bytes is read at once, which fails if the file is too large for that.
const LARGEST: u64 = 1 << 30;

/// What a file says as a script.
#[derive(Drop)]
pub enum ScriptRead {
    /// Its events.
    Good(Events),
    /// The number of the first line that is refused, from 1.
    Refused(u64),
}

/// What the file `name` says as a script, in memory from `alloc`. It is read piece after piece, and no piece after a line
/// that is refused; but a file of which no part can be read, for example a pipe, and one with a line as long as a piece
/// are read at once.
pub fn read_script_file<F: Files>(
    alloc: Global,
    files: &mut F,
    name: &str,
) -> Result<ScriptRead, FileError>
    ensures read { IfOk result (λ r. SaysScript (F.seen files.old).known name.now (read_view r)) }
    ensures few { IfOk result (λ r. IfOk (read_view r) (λ events. length events ≤ 2 ^ 24)) }
    ensures ok { OnOk result (F.seen files.new ≡ F.seen files.old) }
    ensures err { IfErr result (ReadStops name.now (F.seen files.old) (F.seen files.new)) }
    ensures pieces { F.largest files.new ≤ max (F.largest files.old) 32768 }
{
    let mut reader = ScriptReader::new(alloc);
    let mut piece = [0; PIECE];
    let beginning = files.begin(alloc, name, &mut piece)?;
    let mut n = match beginning {
        Beginning::Part(n) => n,
        Beginning::Whole(bytes) => return script_in(alloc, &bytes),
    };
    let mut offset = 0;
    while offset < LARGEST {
        let last;
        (reader, last) = match reader.read_lines(&piece[..n]) {
            Ok(read) => read,
            Err(error) => return said(Err(error)),
        };
        if n < PIECE {
            return said(reader.read_last(last));
        }
        let whole_lines = n - last.len();
        if whole_lines == 0 {
            break;
        }
        offset += whole_lines as u64;
        n = files.read_at(name, offset, &mut piece)?;
    }
    // A line fills a piece, or the script is that large.
    read_at_once(alloc, files, name)
}

// The same, in memory from `alloc` for all bytes of the file.
fn read_at_once<F: Files>(alloc: Global, files: &mut F, name: &str) -> Result<ScriptRead, FileError>
    ensures read { IfOk result (λ r. SaysScript (F.seen files.old).known name.now (read_view r)) }
    ensures few { IfOk result (λ r. IfOk (read_view r) (λ events. length events ≤ 2 ^ 24)) }
    ensures ok { OnOk result (F.seen files.new ≡ F.seen files.old) }
    ensures err { IfErr result (ReadStops name.now (F.seen files.old) (F.seen files.new)) }
    ensures pieces { F.largest files.new ≤ F.largest files.old }
{
    let bytes = files.read(alloc, name)?;
    script_in(alloc, &bytes)
}

// What these bytes say as a script.
fn script_in(alloc: Global, bytes: &[u8]) -> Result<ScriptRead, FileError>
    ensures read { IfOk result (λ r. script_of bytes.now ≡ read_view r) }
    ensures few { IfOk result (λ r. IfOk (read_view r) (λ events. length events ≤ 2 ^ 24)) }
    ensures memory { IfErr result (λ e. e ≡ FileError.OutOfMemory) }
{
    said(parse_script(alloc, bytes))
}

// What a script says, from what reading it answered.
fn said(read: Result<Events, ScriptError>) -> Result<ScriptRead, FileError>
    requires { IfOk read (λ events. length events ≤ 2 ^ 24) }
    ensures read { IfOk result (λ r. (meant : Result (List Event) _) → IsReadAs meant read → meant ≡ read_view r) }
    ensures few { IfOk result (λ r. IfOk (read_view r) (λ events. length events ≤ 2 ^ 24)) }
    ensures memory { IfErr result (λ e. e ≡ FileError.OutOfMemory) }
{
    match read {
        Ok(events) => Ok(ScriptRead::Good(events)),
        Err(ScriptError::Refused(line)) => Ok(ScriptRead::Refused(line)),
        Err(ScriptError::OutOfMemory) => Err(FileError::OutOfMemory),
    }
}
