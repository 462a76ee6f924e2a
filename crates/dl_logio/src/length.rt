//! How long a log is as a file.
ghost use Rattle.std.specs.Prelude.{◌≡◌, length};
ghost use Rattle.spec_log.specs.Bytes.{log_bytes};

use crate::PIECE;
use dl_logfmt::{Log, LogWriter};

/// How many bytes the log has, counted piece after piece, in no memory but that of one.
pub fn log_length(log: &Log) -> u64
    ensures { result ≡ length (log_bytes log.now) }
{
    // A log has fewer than 2^64 bytes.
    let _parts = log.parts();
    let mut writer = LogWriter::new(log);
    let mut piece = [0; PIECE];
    let mut length = 0;
    loop {
        let n = writer.next(&mut piece);
        if n == 0 {
            return length;
        }
        length += n as u64;
    }
}
