//! A log read from its file.
ghost use Rattle.std.specs.Prelude.{◌≡◌, ◌≤◌, ℕ, List, max, IfOk, IfErr, OnOk};
ghost use Rattle.dl_files.specs.Seen.{ReadStops};
ghost use Rattle.dl_logfmt.specs.Feeding.{HasFed};
ghost use Rattle.dl_logio.specs.Files.{SaysLog, read_view};
ghost use Rattle.spec_log.specs.Reading.{read_of};

use crate::PIECE;
use dl_files::{FileError, Files};
use dl_logfmt::{Fault, Log, LogError, LogReader};
use std::alloc::Global;

/// What a file says as a log.
#[derive(Drop)]
pub enum LogRead {
    /// The log.
    Good(Log),
    /// The first fault.
    Malformed(Fault),
}

/// What the file `name` says as a log, in memory of `alloc`. Nothing is read after a field that isn't good.
pub fn read_log_file<F: Files>(
    alloc: Global,
    files: &mut F,
    name: &str,
) -> Result<LogRead, FileError>
    ensures read { IfOk result (λ r. SaysLog (F.seen files.old).known name.now (read_view r)) }
    ensures ok { OnOk result (F.seen files.new ≡ F.seen files.old) }
    ensures err { IfErr result (ReadStops name.now (F.seen files.old) (F.seen files.new)) }
    ensures pieces { F.largest files.new ≤ max (F.largest files.old) 4096 }
{
    let mut reader = LogReader::new(alloc);
    let mut piece = [0; PIECE];
    let mut offset = 0;
    loop {
        let n = files.read_at(name, offset, &mut piece)?;
        if n == 0 {
            return end_of(reader);
        }
        match reader.feed(&piece[..n]) {
            Ok(()) => {}
            Err(LogError::Malformed(fault)) => return Ok(LogRead::Malformed(fault)),
            Err(LogError::OutOfMemory) => return Err(FileError::OutOfMemory),
        }
        offset += n as u64;
    }
}

// What the bytes say that a reader was fed, once they are all of the file's.
fn end_of(reader: LogReader) -> Result<LogRead, FileError>
    ensures read { IfOk result (λ r. (b : List ℕ) → HasFed b reader → read_of b ≡ read_view r) }
    ensures memory { IfErr result (λ e. e ≡ FileError.OutOfMemory) }
{
    match reader.end() {
        Ok(log) => Ok(LogRead::Good(log)),
        Err(LogError::Malformed(fault)) => Ok(LogRead::Malformed(fault)),
        Err(LogError::OutOfMemory) => Err(FileError::OutOfMemory),
    }
}
