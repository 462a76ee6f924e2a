//! Files in memory as a system, and what is open of them.
ghost use Rattle.std.specs.Prelude.{◌≡◌, ◌≢◌, ◌≤◌, ◌<◌, ◌+◌, ◌↔◌, [], ◌∷◌, ◌++◌, length, take, drop, Some, Contains, IsTrue, IfOk, IfErr, OnOk, OnErr, string_bytes};
ghost use Rattle.std.specs.IoError.{error_kind};
ghost use Rattle.dl_files.specs.Contents.{more};
ghost use Rattle.dl_files.specs.Count.{next};
ghost use Rattle.dl_files.specs.Told.{IsRead, IsRefused};

use crate::Trouble;
use crate::troubles::Troubles;
use dl_files::{FileError, Files, GoodFiles, System};
use std::alloc::{AllocError, Global};
use std::io;
use std::io::ErrorKind;
use std::marker::Model;

/// Files in memory, seen as what they tell. Calls are numbered together from 0, and those that are planned go wrong.
#[derive(Drop)]
pub struct TestSystem {
    alloc: Global,
    files: GoodFiles,
    pipes: Vec<String>,
    troubles: Troubles,
    // How many bytes a call reads or writes at most, and how many more the disk takes.
    piece: usize,
    room: usize,
    opened: u64,
    failed: u64,
    interrupted: u64,
}

/// A file that is read, from the byte on at which it is.
#[derive(Drop)]
pub struct TestReader {
    bytes: Vec<u8>,
    at: u64,
}

/// A file that is written, by its name.
#[derive(Drop)]
pub struct TestWriter {
    name: String,
}

impl Model for TestSystem {
    ghost use Rattle.std.specs.Prelude.{map, string_bytes};
    ghost use Rattle.dl_files.specs.Told.{Told, told_code};

    ghost Value = { Told };

    ghost coded = { told_code };

    ghost view = { λ system. record {
      holds = system.files;
      pipes = map string_bytes system.pipes.items;
      opened = system.opened;
      failed = system.failed;
      interrupted = system.interrupted;
    } };
}

impl TestSystem {
    /// These files, none of which is a pipe; nothing goes wrong, and no call is short.
    pub fn new(alloc: Global, files: GoodFiles) -> Self
        ensures { result ≡ record { holds = files; pipes = []; opened = 0; failed = 0; interrupted = 0 } }
    {
        Self {
            alloc,
            files,
            pipes: Vec::new(alloc),
            troubles: Troubles::new(alloc),
            piece: usize::MAX,
            room: usize::MAX,
            opened: 0,
            failed: 0,
            interrupted: 0,
        }
    }

    /// From now on this name is a pipe.
    pub fn add_pipe(&mut self, name: &str) -> Result<(), AllocError>
        ensures ok { OnOk result
            (self.new ≡ record self.old { pipes = self.old.pipes ++ name.now ∷ [] }) }
        ensures err { OnErr result (self.new ≡ self.old) }
    {
        let name = String::from_str(self.alloc, name)?;
        self.pipes.push(name)?;
        Ok(())
    }

    /// The call with this number goes wrong.
    pub fn plan(&mut self, call: u64, trouble: Trouble) -> Result<(), AllocError>
        ensures { self.new ≡ self.old }
    {
        self.troubles.plan(call, trouble)
    }

    /// From now on a call reads or writes at most that many bytes, or one if that is 0.
    pub fn set_piece(&mut self, piece: usize)
        ensures { self.new ≡ self.old }
    {
        self.piece = piece;
    }

    /// From now on the disk takes that many more bytes.
    pub fn set_room(&mut self, room: usize)
        ensures { self.new ≡ self.old }
    {
        self.room = room;
    }

    fn is_pipe(&self, name: &str) -> bool
        ensures { IsTrue result ↔ Contains self.now.pipes name.now }
    {
        self.pipes.iter().any(|pipe| pipe.as_str() == name)
    }

    fn count_opening(&mut self)
        ensures { self.new ≡ record self.old { opened = next self.old.opened } }
    {
        self.opened = self.opened.saturating_add(1);
    }

    // A call that is refused for this reason.
    fn refuse(&mut self, kind: ErrorKind) -> io::Error
        ensures kind { error_kind result ≡ kind }
        ensures refused { IsRefused self.old self.new }
        ensures interrupted { kind ≡ ErrorKind.Interrupted → IsRead self.old self.new }
    {
        if kind == ErrorKind::Interrupted {
            self.interrupted = self.interrupted.saturating_add(1);
        } else {
            self.failed = self.failed.saturating_add(1);
        }
        io::Error::from(kind)
    }

    // What goes wrong at this call, if something does.
    fn meet(&mut self) -> io::Result<()>
        ensures ok { OnOk result (self.new ≡ self.old) }
        ensures refused { OnErr result (IsRefused self.old self.new) }
        ensures found { IfErr result (λ e. error_kind e ≢ ErrorKind.NotFound) }
        ensures interrupted { IfErr result (λ e. error_kind e ≡ ErrorKind.Interrupted
            → IsRead self.old self.new) }
    {
        match self.troubles.meet() {
            Some(Trouble::Refused) => Err(self.refuse(ErrorKind::PermissionDenied)),
            Some(Trouble::Interrupted) => Err(self.refuse(ErrorKind::Interrupted)),
            None => Ok(()),
        }
    }

    // The file, if memory doesn't run out.
    fn writer(&mut self, name: &str) -> io::Result<TestWriter>
        ensures named { IfOk result (λ writer. string_bytes writer.name ≡ name.now) }
        ensures ok { OnOk result (self.new ≡ self.old) }
        ensures refused { OnErr result (IsRefused self.old self.new) }
    {
        self.meet()?;
        match String::from_str(self.alloc, name) {
            Ok(name) => Ok(TestWriter { name }),
            Err(_) => Err(self.refuse(ErrorKind::OutOfMemory)),
        }
    }

    // Adds bytes to the file.
    fn extend(&mut self, name: &str, bytes: &[u8]) -> io::Result<()>
        ensures ok { OnOk result
            (self.new ≡ record self.old { holds = more name.now bytes.now self.old.holds }) }
        ensures refused { OnErr result (IsRefused self.old self.new) }
        ensures no_interruption { IfErr result (λ e. error_kind e ≢ ErrorKind.Interrupted) }
    {
        match self.files.append(name, bytes) {
            Ok(()) => Ok(()),
            Err(_) => Err(self.refuse(ErrorKind::OutOfMemory)),
        }
    }
}

impl System for TestSystem {
    type Reader = TestReader;

    type Writer = TestWriter;

    ghost use Rattle.std.specs.Prelude.{Some, drop, string_bytes};

    ghost told = { λ system. Some system };

    ghost whole = { λ reader. Some reader.bytes.items };

    ghost left = { λ reader. Some (drop reader.at reader.bytes.items) };

    ghost target = { λ writer. string_bytes writer.name };

    fn is_file(&self, name: &str) -> bool {
        !self.is_pipe(name)
    }

    fn open(&mut self, name: &str) -> io::Result<TestReader> {
        self.count_opening();
        let bytes = match self.files.read(self.alloc, name) {
            Ok(bytes) => bytes,
            Err(FileError::Absent) => return Err(io::Error::from(ErrorKind::NotFound)),
            Err(_) => return Err(self.refuse(ErrorKind::OutOfMemory)),
        };
        self.meet()?;
        Ok(TestReader { bytes, at: 0 })
    }

    fn seek(&mut self, file: &mut TestReader, offset: u64) -> io::Result<()> {
        self.meet()?;
        file.at = offset;
        Ok(())
    }

    fn read(&mut self, file: &mut TestReader, into: &mut [u8]) -> io::Result<usize> {
        self.meet()?;
        Ok(file.give(into, self.piece.max(1)))
    }

    fn create(&mut self, name: &str) -> io::Result<TestWriter> {
        self.count_opening();
        let writer = self.writer(name)?;
        match self.files.create(name) {
            Ok(()) => Ok(writer),
            Err(_) => Err(self.refuse(ErrorKind::OutOfMemory)),
        }
    }

    fn add(&mut self, name: &str) -> io::Result<TestWriter> {
        self.count_opening();
        let writer = self.writer(name)?;
        self.extend(name, b"")?;
        Ok(writer)
    }

    fn write(&mut self, file: &mut TestWriter, bytes: &[u8]) -> io::Result<usize> {
        self.meet()?;
        let count = bytes.len().min(self.piece.max(1)).min(self.room);
        if count == 0 && !bytes.is_empty() {
            return Err(self.refuse(ErrorKind::StorageFull));
        }
        let room = self.room - count;
        self.extend(file.name.as_str(), &bytes[..count])?;
        self.room = room;
        Ok(count)
    }
}

impl TestReader {
    // Copies the next bytes, at most so many.
    #[tactic(auto, using(crate::proofs::Given::given))]
    fn give(&mut self, into: &mut [u8], most: usize) -> usize
        requires { 0 < most }
        ensures within { result ≤ length into.old }
        ensures given { drop self.old.at self.old.bytes.items
            ≡ take result into.new ++ drop self.new.at self.new.bytes.items }
        ensures some { result ≡ 0 → 0 < length into.old → drop self.new.at self.new.bytes.items ≡ [] }
    {
        let count = copy_next(self.bytes.as_slice(), self.at, most, into);
        self.at += count as u64;
        count
    }
}

// Copies the bytes from an offset on, at most so many, and gives their number.
fn copy_next(bytes: &[u8], offset: u64, most: usize, into: &mut [u8]) -> usize
    requires { 0 < most }
    ensures within { result ≤ length into.old }
    ensures copied { take result into.new ≡ take result (drop offset bytes.now) }
    ensures some { result ≡ 0 → 0 < length into.old → drop offset bytes.now ≡ [] }
    ensures ends { 0 < result → offset + result ≤ length bytes.now }
{
    let from = bytes.len().min(offset as usize);
    let left = &bytes[from..];
    let count = left.len().min(into.len()).min(most);
    into[..count].copy_from_slice(&left[..count]);
    count
}
