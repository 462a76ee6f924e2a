//! A file of a system, read whole or a part of it, or written.
ghost use Rattle.std.specs.Prelude.{◌≡◌, ◌≢◌, ◌↔◌, ◌<◌, ◌≤◌, ◌^◌, length, take, vec_len, None, IfOk, IfErr, IfSome, OnOk, OnErr, IsErrOf};
ghost use Rattle.std.specs.FinMap.{get};
ghost use Rattle.std.specs.IoError.{error_kind};
ghost use Rattle.dl_files.specs.Contents.{Holds, HoldsAt, with_file, with_more};
ghost use Rattle.dl_files.specs.Told.{CantRead, Fits, IsOpenedOnce, Reads, Refuses, Spoils, held, opening};

use crate::streams::{Unread, fill, read_whole, write_whole};
use crate::{FileError, System};
use std::alloc::Global;
use std::io;
use std::io::ErrorKind;

/// All bytes of the file.
pub(crate) fn read_file<S: System>(
    system: &mut S,
    name: &str,
    alloc: Global,
) -> Result<Vec<u8>, FileError>
    ensures bytes { IfOk result (λ bytes. Holds (held (S.told system.old)) name.now bytes.items) }
    ensures size { IfOk result (λ bytes. vec_len bytes ≤ 2 ^ 30) }
    ensures absent { IfSome (held (S.told system.old))
        (λ m. IsErrOf result FileError.Absent ↔ (get m name.now ≡ None)) }
    ensures ok { OnOk result (Reads (opening (S.told system.old)) (S.told system.new)) }
    ensures failed { IsErrOf result FileError.Failed
        → CantRead name.now (opening (S.told system.old)) (S.told system.new) }
    ensures passed { IfErr result (λ e. e ≢ FileError.Failed
        → Reads (opening (S.told system.old)) (S.told system.new)) }
    ensures small { IsErrOf result FileError.OutOfMemory → Fits (held (S.told system.old)) name.now }
{
    let mut file = match system.open(name) {
        Ok(file) => file,
        Err(error) => return Err(why_unopened(&error)),
    };
    match read_whole(system, &mut file, alloc) {
        Ok(bytes) => Ok(bytes),
        Err(Unread::OutOfMemory) => Err(FileError::OutOfMemory),
        Err(Unread::Failed(_) | Unread::TooLarge) => Err(FileError::Failed),
    }
}

/// The bytes of the file from `offset` on, as many as fit into the piece. No file reaches as far as 2^63 bytes.
pub(crate) fn read_part<S: System>(
    system: &mut S,
    name: &str,
    offset: u64,
    into: &mut [u8],
) -> Result<usize, FileError>
    ensures bytes { IfOk result (λ n.
        HoldsAt (held (S.told system.old)) name.now offset (length into.old) (take n into.new)) }
    ensures most { IfOk result (λ n. n ≤ length into.old) }
    ensures absent { IfSome (held (S.told system.old))
        (λ m. IsErrOf result FileError.Absent ↔ (get m name.now ≡ None)) }
    ensures ok { OnOk result (Reads (opening (S.told system.old)) (S.told system.new)) }
    ensures failed { IsErrOf result FileError.Failed
        → Refuses (opening (S.told system.old)) (S.told system.new) }
    ensures passed { IfErr result (λ e. e ≢ FileError.Failed
        → Reads (opening (S.told system.old)) (S.told system.new)) }
    ensures no_memory { IfErr result (λ e. e ≢ FileError.OutOfMemory) }
{
    let mut file = match system.open(name) {
        Ok(file) => file,
        Err(error) => return Err(why_unopened(&error)),
    };
    if offset > i64::MAX as u64 {
        return Ok(0);
    }
    if system.seek(&mut file, offset).is_err() {
        return Err(FileError::Failed);
    }
    match fill(system, &mut file, into) {
        Ok(n) => Ok(n),
        Err(_) => Err(FileError::Failed),
    }
}

/// Makes these the bytes of the file.
pub(crate) fn write_file<S: System>(system: &mut S, name: &str, bytes: &[u8]) -> io::Result<()>
    ensures written { OnOk result
        (held (S.told system.new) ≡ with_file name.now bytes.now (held (S.told system.old))) }
    ensures opened { OnOk result (IsOpenedOnce (S.told system.old) (S.told system.new)) }
    ensures refused { OnErr result (Spoils name.now (opening (S.told system.old)) (S.told system.new)) }
{
    let mut file = system.create(name)?;
    write_whole(system, &mut file, bytes)
}

/// Puts the bytes after those of the file, which is made if it isn't there.
pub(crate) fn append_file<S: System>(system: &mut S, name: &str, bytes: &[u8]) -> io::Result<()>
    ensures written { OnOk result
        (held (S.told system.new) ≡ with_more name.now bytes.now (held (S.told system.old))) }
    ensures opened { OnOk result (IsOpenedOnce (S.told system.old) (S.told system.new)) }
    ensures refused { OnErr result (Spoils name.now (opening (S.told system.old)) (S.told system.new)) }
{
    let mut file = system.add(name)?;
    write_whole(system, &mut file, bytes)
}

// Why a file that couldn't be opened can't be read.
fn why_unopened(error: &io::Error) -> FileError
    ensures absent { (result ≡ FileError.Absent) ↔ (error_kind error.now ≡ ErrorKind.NotFound) }
    ensures memory { result ≢ FileError.OutOfMemory }
{
    match error.kind() {
        ErrorKind::NotFound => FileError::Absent,
        _ => FileError::Failed,
    }
}
