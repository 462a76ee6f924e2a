//! A log's bytes at once.
ghost use Rattle.std.specs.Prelude.{◌≡◌, IfOk};
ghost use Rattle.spec_log.specs.Bytes.{log_bytes};
ghost use Rattle.spec_log.specs.Reading.{read_of};
ghost use Rattle.dl_logfmt.specs.Answer.{IsReading};

use crate::error::LogError;
use crate::reader::LogReader;
use crate::writer::LogWriter;
use dl_entry::OutOfMemory;
use spec_log::Log;
use std::alloc::Global;

/// The log of which these are the bytes, else the first field that isn't good.
pub fn read_log(alloc: Global, bytes: &[u8]) -> Result<Log, LogError>
    ensures { IsReading (read_of bytes.now) result }
{
    let mut reader = LogReader::new(alloc);
    reader.feed(bytes)?;
    reader.end()
}

/// The bytes of a log.
pub fn write_log(alloc: Global, log: &Log) -> Result<Vec<u8>, OutOfMemory>
    ensures { IfOk result (λ bytes. bytes.items ≡ log_bytes log.now) }
{
    let mut writer = LogWriter::new(log);
    let mut piece = [0; 512];
    let mut out = Vec::new(alloc);
    let mut count = writer.next(&mut piece);
    while count > 0 {
        out.extend_from_slice(&piece[..count])?;
        count = writer.next(&mut piece);
    }
    Ok(out)
}
