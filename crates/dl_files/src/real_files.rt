//! The files of a system, which is all that is trusted: what is read and written of it is proved of any system that tells what
//! its files hold.
ghost use Rattle.std.specs.Prelude.{◌≡◌, ◌≢◌, ◌≤◌, ◌^◌, ◌↔◌, [], None, length, take, vec_len, IfOk, IfErr, IfSome, IsOk, OnOk, OnErr, IsErrOf};
ghost use Rattle.std.specs.FinMap.{get};
ghost use Rattle.dl_files.specs.Contents.{Begins, Holds, HoldsAt, with_file, with_more};
ghost use Rattle.dl_files.specs.Seen.{uncounted, with_absent, with_change, with_unread, with_unwritten};
ghost use Rattle.dl_files.specs.Told.{CantRead, Fits, IsOpenedOnce, IsReadAs, Reads, Refuses, Spoils, held, opening, seen_by};

use crate::opened::{append_file, read_file, read_part, write_file};
use crate::{Beginning, Faults, FileError, Files, Os, System};
use std::alloc::Global;
use std::marker::Model;
use std::{io, rt};

/// The files of a system, seen as what the system tells and their counts. Each refusal is counted, even that of an absent
/// file, except when memory runs out. Reading a file of more than 2^30 bytes whole is a fault, once that many are read; parts
/// can be read of a file of any size.
#[derive(Drop)]
pub struct SystemFiles<S: System> {
    system: S,
    faults: u64,
    // Those of them that aren't by absent names.
    failed: u64,
    unread: u64,
    changes: u64,
    // Whether the last call that was to change a file failed.
    unwritten: bool,
}

/// The files of the system that `R` reaches.
pub type RealFiles<R> = SystemFiles<Os<R>>;

impl<S: System> Model for SystemFiles<S> {
    ghost use Rattle.dl_files.specs.Told.{Outside, outside_code};

    ghost Value = { Outside };

    ghost coded = { outside_code };

    ghost use Rattle.std.specs.Prelude.{◌≤◌};

    ghost view = { λ files. record {
      told = S.told files.system;
      counts = record {
        faults = files.faults;
        failed = files.failed;
        unread = files.unread;
        changes = files.changes;
        unwritten = files.unwritten;
      };
    } };

    ghost invariant = { λ files. files.failed ≤ files.faults };
}

impl<R: rt::Files> SystemFiles<Os<R>> {
    /// The files that `rt` reaches, with nothing counted yet.
    pub fn new(rt: R) -> Self
        ensures { result ≡ record { told = None; counts = uncounted } }
    {
        Self::over(Os::new(rt))
    }
}

impl<S: System> SystemFiles<S> {
    /// The files of this system, with nothing counted yet.
    pub fn over(system: S) -> Self
        ensures { result ≡ record { told = S.told system; counts = uncounted } }
    {
        Self {
            system,
            faults: 0,
            failed: 0,
            unread: 0,
            changes: 0,
            unwritten: false,
        }
    }

    // A read that found no file.
    fn absent(&mut self)
        ensures { self.new ≡ record self.old { counts = with_absent self.old.counts } }
    {
        self.faults = self.faults.saturating_add(1);
        self.unread = self.unread.saturating_add(1);
    }

    // A read that failed.
    fn unread(&mut self)
        ensures { self.new ≡ record self.old { counts = with_unread self.old.counts } }
    {
        self.faults = self.faults.saturating_add(1);
        self.failed = self.failed.saturating_add(1);
        self.unread = self.unread.saturating_add(1);
    }

    // What a read answers. One that failed is counted.
    fn settle_read<T: Drop>(&mut self, read: Result<T, FileError>) -> Result<T, FileError>
        ensures answer { result ≡ read }
        ensures ok { OnOk result (self.new ≡ self.old) }
        ensures unfound { IsErrOf result FileError.Absent
            → self.new ≡ record self.old { counts = with_absent self.old.counts } }
        ensures refused { IsErrOf result FileError.Failed
            → self.new ≡ record self.old { counts = with_unread self.old.counts } }
        ensures memory { IsErrOf result FileError.OutOfMemory → self.new ≡ self.old }
    {
        match read {
            Err(FileError::Absent) => self.absent(),
            Err(FileError::Failed) => self.unread(),
            Ok(_) | Err(FileError::OutOfMemory) => {}
        }
        read
    }

    // What a write answers. Each one is counted.
    fn settle_write(&mut self, done: io::Result<()>) -> Result<(), FileError>
        ensures done { IsOk result ↔ IsOk done }
        ensures ok { OnOk result (self.new ≡ record self.old { counts = with_change self.old.counts }) }
        ensures only { IfErr result (λ e. e ≡ FileError.Failed) }
        ensures refused { OnErr result (self.new ≡ record self.old { counts = with_unwritten self.old.counts }) }
    {
        self.changes = self.changes.saturating_add(1);
        self.unwritten = done.is_err();
        match done {
            Ok(()) => Ok(()),
            Err(_) => {
                self.faults = self.faults.saturating_add(1);
                self.failed = self.failed.saturating_add(1);
                Err(FileError::Failed)
            }
        }
    }
}

impl<S: System> Files for SystemFiles<S> {
    ghost seen = { λ files. seen_by files.told files.counts };

    ghost largest = { λ _. 0 };

    fn faults(&self) -> Faults
        ensures all { result.all ≡ self.now.counts.faults }
        ensures failed { result.failed ≡ self.now.counts.failed }
        ensures within { result.failed ≤ result.all }
    {
        Faults {
            all: self.faults,
            failed: self.failed,
        }
    }

    fn read(&mut self, alloc: Global, name: &str) -> Result<Vec<u8>, FileError>
        ensures bytes { IfOk result (λ bytes. Holds (held self.old.told) name.now bytes.items) }
        ensures size { IfOk result (λ bytes. vec_len bytes ≤ 2 ^ 30) }
        ensures absent { IfSome (held self.old.told)
            (λ m. IsErrOf result FileError.Absent ↔ (get m name.now ≡ None)) }
        ensures told { OnOk result (Reads (opening self.old.told) self.new.told) }
        ensures failed { IsErrOf result FileError.Failed
            → CantRead name.now (opening self.old.told) self.new.told }
        ensures passed { IfErr result (λ e. e ≢ FileError.Failed
            → Reads (opening self.old.told) self.new.told) }
        ensures small { IsErrOf result FileError.OutOfMemory → Fits (held self.old.told) name.now }
        ensures ok { OnOk result (self.new.counts ≡ self.old.counts) }
        ensures unfound { IsErrOf result FileError.Absent → self.new.counts ≡ with_absent self.old.counts }
        ensures refused { IsErrOf result FileError.Failed → self.new.counts ≡ with_unread self.old.counts }
        ensures memory { IsErrOf result FileError.OutOfMemory → self.new.counts ≡ self.old.counts }
    {
        let read = read_file(&mut self.system, name, alloc);
        self.settle_read(read)
    }

    fn read_at(&mut self, name: &str, offset: u64, into: &mut [u8]) -> Result<usize, FileError>
        ensures bytes { IfOk result (λ n.
            HoldsAt (held self.old.told) name.now offset (length into.old) (take n into.new)) }
        ensures most { IfOk result (λ n. n ≤ length into.old) }
        ensures absent { IfSome (held self.old.told)
            (λ m. IsErrOf result FileError.Absent ↔ (get m name.now ≡ None)) }
        ensures told { OnOk result (Reads (opening self.old.told) self.new.told) }
        ensures failed { IsErrOf result FileError.Failed
            → Refuses (opening self.old.told) self.new.told }
        ensures passed { IfErr result (λ e. e ≢ FileError.Failed
            → Reads (opening self.old.told) self.new.told) }
        ensures ok { OnOk result (self.new.counts ≡ self.old.counts) }
        ensures no_memory { IfErr result (λ e. e ≢ FileError.OutOfMemory) }
        ensures unfound { IsErrOf result FileError.Absent → self.new.counts ≡ with_absent self.old.counts }
        ensures refused { IsErrOf result FileError.Failed → self.new.counts ≡ with_unread self.old.counts }
    {
        let read = read_part(&mut self.system, name, offset, into);
        self.settle_read(read)
    }

    // Of a pipe or a device only the next part can be read.
    fn begin(&mut self, alloc: Global, name: &str, into: &mut [u8]) -> Result<Beginning, FileError>
        ensures begins { IfOk result (Begins (held self.old.told) name.now (length into.old) into.new) }
        ensures whole { IfOk result (IsReadAs self.old.told name.now) }
        ensures absent { IfSome (held self.old.told)
            (λ m. IsErrOf result FileError.Absent ↔ (get m name.now ≡ None)) }
        ensures told { OnOk result (Reads (opening self.old.told) self.new.told) }
        ensures failed { IsErrOf result FileError.Failed
            → CantRead name.now (opening self.old.told) self.new.told }
        ensures passed { IfErr result (λ e. e ≢ FileError.Failed
            → Reads (opening self.old.told) self.new.told) }
        ensures small { IsErrOf result FileError.OutOfMemory → Fits (held self.old.told) name.now }
        ensures ok { OnOk result (self.new.counts ≡ self.old.counts) }
        ensures unfound { IsErrOf result FileError.Absent → self.new.counts ≡ with_absent self.old.counts }
        ensures refused { IsErrOf result FileError.Failed → self.new.counts ≡ with_unread self.old.counts }
        ensures memory { IsErrOf result FileError.OutOfMemory → self.new.counts ≡ self.old.counts }
    {
        if self.system.is_file(name) {
            let n = self.read_at(name, 0, into)?;
            return Ok(Beginning::Part(n));
        }
        let bytes = self.read(alloc, name)?;
        Ok(Beginning::Whole(bytes))
    }

    fn write(&mut self, name: &str, bytes: &[u8]) -> Result<(), FileError>
        ensures written { OnOk result
            (held self.new.told ≡ with_file name.now bytes.now (held self.old.told)) }
        ensures opened { OnOk result (IsOpenedOnce self.old.told self.new.told) }
        ensures spoiled { OnErr result (Spoils name.now (opening self.old.told) self.new.told) }
        ensures ok { OnOk result (self.new.counts ≡ with_change self.old.counts) }
        ensures only { IfErr result (λ e. e ≡ FileError.Failed) }
        ensures refused { OnErr result (self.new.counts ≡ with_unwritten self.old.counts) }
    {
        let done = write_file(&mut self.system, name, bytes);
        self.settle_write(done)
    }

    fn create(&mut self, name: &str) -> Result<(), FileError>
        ensures created { OnOk result
            (held self.new.told ≡ with_file name.now [] (held self.old.told)) }
        ensures opened { OnOk result (IsOpenedOnce self.old.told self.new.told) }
        ensures spoiled { OnErr result (Spoils name.now (opening self.old.told) self.new.told) }
        ensures ok { OnOk result (self.new.counts ≡ with_change self.old.counts) }
        ensures only { IfErr result (λ e. e ≡ FileError.Failed) }
        ensures refused { OnErr result (self.new.counts ≡ with_unwritten self.old.counts) }
    {
        self.write(name, b"")
    }

    fn append(&mut self, name: &str, bytes: &[u8]) -> Result<(), FileError>
        ensures appended { OnOk result
            (held self.new.told ≡ with_more name.now bytes.now (held self.old.told)) }
        ensures opened { OnOk result (IsOpenedOnce self.old.told self.new.told) }
        ensures spoiled { OnErr result (Spoils name.now (opening self.old.told) self.new.told) }
        ensures ok { OnOk result (self.new.counts ≡ with_change self.old.counts) }
        ensures only { IfErr result (λ e. e ≡ FileError.Failed) }
        ensures refused { OnErr result (self.new.counts ≡ with_unwritten self.old.counts) }
    {
        let done = append_file(&mut self.system, name, bytes);
        self.settle_write(done)
    }
}
