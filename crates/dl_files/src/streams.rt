//! How bytes go through files of a system, and to its output: all of them, in as many calls as that takes, going on after
//! an interruption.
ghost use Rattle.std.specs.Prelude.{◌≡◌, ◌≢◌, ℕ, ◌<◌, ◌≤◌, ◌^◌, ◌++◌, length, take, vec_len, None, IfOk, IfErr, IfSome, OnOk, OnErr, IsErr, IsErrOf};
ghost use Rattle.std.specs.IoError.{error_kind};
ghost use Rattle.std.specs.Io.KnownBytes.{Consumes, IsAtEnd, Keeps, ReadConsumes};
ghost use Rattle.dl_files.specs.Count.{Rose};
ghost use Rattle.dl_files.specs.Streams.{IsLarge, IsSmall};
ghost use Rattle.dl_files.specs.Taken.{with_taken};
ghost use Rattle.dl_files.specs.Told.{Grows, Reads, Refuses, Spoils};

use crate::{Output, System};
use std::alloc::Global;
use std::io;
use std::io::ErrorKind;

/// The size in bytes of the largest file that is read whole.
const LARGEST: usize = 1 << 30;

// How many bytes are read at a time.
const PIECE: usize = 1 << 15;

/// Why a reader could not be read whole.
#[derive(Drop)]
pub(crate) enum Unread {
    /// A read failed with this error.
    Failed(io::Error),
    /// It has more than 2^30 bytes.
    TooLarge,
    /// Memory ran out.
    OutOfMemory,
}

impl From<io::Error> for Unread {
    ghost use Rattle.std.specs.Prelude.{◌≡◌};
    ghost use Rattle.dl_files.specs.declared.streams.Unread.TheVariants.{Failed};

    ghost from_gives = { λ error unread. unread ≡ Failed error };

    fn from(error: io::Error) -> Unread {
        Unread::Failed(error)
    }
}

/// All bytes that the file has left. Also when memory has run out it goes on, to see whether there are too many.
pub(crate) fn read_whole<S: System>(
    system: &mut S,
    file: &mut S::Reader,
    alloc: Global,
) -> Result<Vec<u8>, Unread>
    ensures bytes { IfOk result (λ bytes. Consumes (S.left file.old) (S.left file.new) bytes.items) }
    ensures ended { OnOk result (IsAtEnd (S.left file.new)) }
    ensures size { IfOk result (λ bytes. vec_len bytes ≤ 2 ^ 30) }
    ensures large { IfErr result (λ e. e ≡ Unread.TooLarge → IsLarge (S.left file.old)) }
    ensures small { IfErr result (λ e. e ≡ Unread.OutOfMemory → IsSmall (S.left file.old)) }
    ensures ok { OnOk result (Reads (S.told system.old) (S.told system.new)) }
    ensures refused { IfErr result (λ e. e ≢ Unread.TooLarge → e ≢ Unread.OutOfMemory
        → Refuses (S.told system.old) (S.told system.new)) }
    ensures too_large { IfErr result (λ e. e ≡ Unread.TooLarge → Reads (S.told system.old) (S.told system.new)) }
    ensures memory { IfErr result (λ e. e ≡ Unread.OutOfMemory → Reads (S.told system.old) (S.told system.new)) }
{
    let mut kept = Some(Vec::new(alloc));
    let mut count = 0;
    let mut piece = [0u8; PIECE];
    // Each turn but the last takes a whole piece.
    while count <= LARGEST {
        let n = fill(system, file, &mut piece)?;
        kept = keep(kept, &piece[..n]);
        count += n;
        if n < PIECE && count <= LARGEST {
            return match kept {
                Some(bytes) => Ok(bytes),
                None => Err(Unread::OutOfMemory),
            };
        }
    }
    Err(Unread::TooLarge)
}

// These bytes and the next ones, as long as memory lasts.
fn keep(kept: Option<Vec<u8>>, bytes: &[u8]) -> Option<Vec<u8>>
    ensures more { IfSome result (λ new. IfSome kept (λ old. new.items ≡ old.items ++ bytes.now)) }
    ensures lost { kept ≡ None → result ≡ None }
{
    let mut kept = kept?;
    match kept.extend_from_slice(bytes) {
        Ok(()) => Some(kept),
        Err(_) => None,
    }
}

/// The next bytes that the file has left, as many as fit into the piece.
pub(crate) fn fill<S: System>(
    system: &mut S,
    file: &mut S::Reader,
    into: &mut [u8],
) -> io::Result<usize>
    ensures most { IfOk result (λ n. n ≤ length into.old) }
    ensures bytes { IfOk result (λ n. Consumes (S.left file.old) (S.left file.new) (take n into.new)) }
    ensures ended { IfOk result (λ n. n < length into.old → IsAtEnd (S.left file.new)) }
    ensures ok { OnOk result (Reads (S.told system.old) (S.told system.new)) }
    ensures refused { OnErr result (Refuses (S.told system.old) (S.told system.new)) }
    ensures retried { IfErr result (λ e. error_kind e ≢ ErrorKind.Interrupted) }
{
    let mut filled = 0;
    while filled < into.len() {
        let n = read_some(system, file, &mut into[filled..])?;
        if n == 0 {
            return Ok(filled);
        }
        filled += n;
    }
    Ok(filled)
}

// The next bytes, as many as one call gives that is not interrupted.
fn read_some<S: System>(system: &mut S, file: &mut S::Reader, into: &mut [u8]) -> io::Result<usize>
    ensures within { IfOk result (λ n. n ≤ length into.old) }
    ensures bytes { ReadConsumes (S.left file.old) (S.left file.new) result into.new }
    ensures ok { OnOk result (Reads (S.told system.old) (S.told system.new)) }
    ensures refused { OnErr result (Refuses (S.told system.old) (S.told system.new)) }
    ensures retried { IfErr result (λ e. error_kind e ≢ ErrorKind.Interrupted) }
{
    for _ in 1..u64::MAX {
        match system.read(file, into) {
            Err(error) if error.kind() == ErrorKind::Interrupted => {}
            answer => return answer,
        }
    }
    given_up(system.read(file, into))
}

/// Puts all of the bytes at the end of the file; if a call is refused, it has the first of them.
pub(crate) fn write_whole<S: System>(
    system: &mut S,
    file: &mut S::Writer,
    bytes: &[u8],
) -> io::Result<()>
    ensures all { OnOk result (Grows (S.target file.old) bytes.now (S.told system.old) (S.told system.new)) }
    ensures refused { OnErr result (Spoils (S.target file.old) (S.told system.old) (S.told system.new)) }
    ensures retried { IfErr result (λ e. error_kind e ≢ ErrorKind.Interrupted) }
{
    let mut done = 0;
    while done < bytes.len() {
        done += add_some(system, file, &bytes[done..])?;
    }
    Ok(())
}

// Puts the first of the bytes at the end of the file and answers how many: at least one.
fn add_some<S: System>(system: &mut S, file: &mut S::Writer, bytes: &[u8]) -> io::Result<usize>
    requires { 0 < length bytes.now }
    ensures within { IfOk result (λ n. n ≤ length bytes.now) }
    ensures some { IfOk result (λ n. 0 < n) }
    ensures wrote { IfOk result (λ n.
        Grows (S.target file.old) (take n bytes.now) (S.told system.old) (S.told system.new)) }
    ensures named { S.target file.new ≡ S.target file.old }
    ensures refused { OnErr result (Refuses (S.told system.old) (S.told system.new)) }
    ensures retried { IfErr result (λ e. error_kind e ≢ ErrorKind.Interrupted) }
{
    for _ in 1..u64::MAX {
        match system.write(file, bytes) {
            Err(error) if error.kind() == ErrorKind::Interrupted => {}
            answer => return written(answer),
        }
    }
    written(system.write(file, bytes))
}

// The last answer, which may not be made again.
fn given_up(answer: io::Result<usize>) -> io::Result<usize>
    ensures ok { OnOk result (result ≡ answer) }
    ensures err { OnErr result (IsErr answer) }
    ensures retried { IfErr result (λ e. error_kind e ≢ ErrorKind.Interrupted) }
{
    match answer {
        Err(error) if error.kind() == ErrorKind::Interrupted => {
            Err(io::Error::from(ErrorKind::TimedOut))
        }
        answer => answer,
    }
}

// A call that wrote nothing was refused, and the last answer may not be made again.
fn written(answer: io::Result<usize>) -> io::Result<usize>
    ensures some { IfOk result (λ n. 0 < n) }
    ensures ok { OnOk result (result ≡ answer) }
    ensures err { OnErr result (IfOk answer (λ n. n ≡ 0)) }
    ensures retried { IfErr result (λ e. error_kind e ≢ ErrorKind.Interrupted) }
{
    match answer {
        Ok(0) => Err(io::Error::from(ErrorKind::WriteZero)),
        answer => given_up(answer),
    }
}

/// Hands over the first of the bytes and answers how many: at least one, unless there is none.
pub(crate) fn write_some<O: Output>(output: &mut O, bytes: &[u8]) -> io::Result<usize>
    ensures took { IfOk result (λ n. O.holds output.new ≡ with_taken n bytes.now (O.holds output.old)) }
    ensures within { IfOk result (λ n. n ≤ length bytes.now) }
    ensures some { IfOk result (λ n. 0 < length bytes.now → 0 < n) }
    ensures same { OnErr result (O.holds output.new ≡ O.holds output.old) }
    ensures counted { IfSome (O.holds output.old)
        (λ _. OnErr result (Rose (O.refusals output.old) (O.refusals output.new))) }
    ensures retried { IfErr result (λ e. error_kind e ≢ ErrorKind.Interrupted) }
{
    for _ in 1..u64::MAX {
        match write_once(output, bytes) {
            Err(error) if error.kind() == ErrorKind::Interrupted => {}
            answer => return answer,
        }
    }
    given_up(write_once(output, bytes))
}

// One call, which is refused if it took nothing.
fn write_once<O: Output>(output: &mut O, bytes: &[u8]) -> io::Result<usize>
    ensures took { IfOk result (λ n. O.holds output.new ≡ with_taken n bytes.now (O.holds output.old)) }
    ensures within { IfOk result (λ n. n ≤ length bytes.now) }
    ensures some { IfOk result (λ n. 0 < length bytes.now → 0 < n) }
    ensures same { OnErr result (O.holds output.new ≡ O.holds output.old) }
    ensures grows { O.refusals output.old ≤ O.refusals output.new }
    ensures counted { IfSome (O.holds output.old)
        (λ _. OnErr result (Rose (O.refusals output.old) (O.refusals output.new))) }
{
    match output.write(bytes) {
        Ok(0) if !bytes.is_empty() => Err(io::Error::from(ErrorKind::WriteZero)),
        answer => answer,
    }
}
