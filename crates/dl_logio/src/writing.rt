//! A log written to its file.
ghost use Rattle.std.specs.Prelude.{IfErr, OnOk};
ghost use Rattle.dl_files.specs.Contents.{with_file};
ghost use Rattle.dl_files.specs.Seen.{IsWritten};
ghost use Rattle.dl_logio.specs.Files.{LogStops};
ghost use Rattle.spec_log.specs.Bytes.{log_bytes};

use crate::PIECE;
use dl_files::{FileError, Files};
use dl_logfmt::{Log, LogWriter};

/// Makes the bytes of the log those of the file `name`, piece after piece, in no memory but that of one. After `Failed` nothing
/// is known of that file alone. After `OutOfMemory` it is as before, or holds the first of the log's bytes.
pub fn write_log_file<F: Files>(files: &mut F, name: &str, log: &Log) -> Result<(), FileError>
    ensures written { OnOk result (IsWritten (with_file name.now (log_bytes log.now) (F.seen files.old).known)
        (F.seen files.old) (F.seen files.new)) }
    ensures err { IfErr result (LogStops name.now (log_bytes log.now) (F.seen files.old) (F.seen files.new)) }
{
    let mut writer = LogWriter::new(log);
    let mut piece = [0; PIECE];
    files.create(name)?;
    loop {
        let n = writer.next(&mut piece);
        if n == 0 {
            return Ok(());
        }
        files.append(name, &piece[..n])?;
    }
}
