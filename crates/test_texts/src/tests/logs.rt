//! Logs that are read and written at once. A log is dropped in the function that takes it, since a test that held it would
//! be proved to end each of its lists, wherever the test may return.
use dl_inspect::inspect_text;
use dl_logfmt::{Log, LogError, LogReader, OutOfMemory, migrate_log, read_log, write_log};
use std::alloc::Global;

/// The bytes as which the log of these bytes is written.
pub fn rewritten(alloc: Global, bytes: &[u8]) -> Result<Vec<u8>, LogError> {
    Ok(written(alloc, read_log(alloc, bytes)?)?)
}

/// The same if the log is read in pieces of that size.
pub fn rejoined(alloc: Global, bytes: &[u8], size: usize) -> Result<Vec<u8>, LogError> {
    Ok(written(alloc, fed(alloc, bytes, size)?)?)
}

/// The bytes of the log of these bytes, made version 2.
pub fn migrated(alloc: Global, bytes: &[u8]) -> Result<Vec<u8>, LogError> {
    let migrated = made_version_2(alloc, read_log(alloc, bytes)?)?;
    Ok(written(alloc, migrated)?)
}

/// The text of the log of these bytes.
pub fn inspected(alloc: Global, bytes: &[u8]) -> Result<Vec<u8>, LogError> {
    Ok(text(alloc, read_log(alloc, bytes)?)?)
}

/// Why these bytes aren't a log.
pub fn refused(alloc: Global, bytes: &[u8]) -> Option<LogError> {
    read_log(alloc, bytes).err()
}

fn written(alloc: Global, log: Log) -> Result<Vec<u8>, OutOfMemory> {
    let bytes = write_log(alloc, &log);
    drop(log);
    bytes
}

fn fed(alloc: Global, bytes: &[u8], size: usize) -> Result<Log, LogError> {
    let mut reader = LogReader::new(alloc);
    for piece in bytes.chunks(size.max(1)) {
        reader.feed(piece)?;
    }
    reader.end()
}

fn made_version_2(alloc: Global, log: Log) -> Result<Log, OutOfMemory> {
    let migrated = migrate_log(alloc, &log);
    drop(log);
    migrated
}

fn text(alloc: Global, log: Log) -> Result<Vec<u8>, OutOfMemory> {
    let text = inspect_text(alloc, &log);
    drop(log);
    text
}
