//! Files in memory that never fail.
ghost use Rattle.std.specs.Prelude.{◌≡◌, ◌↔◌, ◌≤◌, [], length, take, None, Some, IfOk, IfErr, OnOk, OnErr, IsErrOf};
ghost use Rattle.std.specs.FinMap.{empty, get, insert};
ghost use Rattle.dl_files.specs.Contents.{part_of, more};
ghost use Rattle.dl_files.specs.Entries.{contents_of};
ghost use Rattle.dl_files.specs.Seen.{telling};

use crate::part::copy_part;
use crate::store::Store;
use crate::{Faults, FileError, Files};
use std::alloc::Global;
use std::marker::Model;

/// Files in memory, seen as their contents. They have no faults: the count is 0 and no call fails.
/// The only refusals are that a name is absent and that memory ran out.
#[derive(Drop)]
pub struct GoodFiles {
    store: Store,
}

impl Model for GoodFiles {
    ghost use Rattle.dl_files.specs.Contents.{Contents, contents_code};
    ghost use Rattle.dl_files.specs.Entries.{contents_of};

    ghost Value = { Contents };

    ghost coded = { contents_code };

    ghost view = { λ files. contents_of files.store };
}

impl GoodFiles {
    /// No files yet; those to come are kept in memory from `alloc`.
    pub fn new(alloc: Global) -> Self
        ensures { result ≡ empty }
    {
        Self {
            store: Store::new(alloc),
        }
    }

    pub(crate) fn into_store(self) -> Store
        ensures { contents_of result ≡ self }
    {
        self.store
    }
}

impl Files for GoodFiles {
    ghost seen = { λ files. telling files 0 None };

    ghost largest = { λ _. 0 };

    fn faults(&self) -> Faults
        ensures all { result.all ≡ 0 }
        ensures failed { result.failed ≡ 0 }
    {
        Faults { all: 0, failed: 0 }
    }

    fn read(&mut self, alloc: Global, name: &str) -> Result<Vec<u8>, FileError>
        ensures bytes { IfOk result (λ bytes. get self.old name.now ≡ Some bytes.items) }
        ensures absent { IsErrOf result FileError.Absent ↔ (get self.old name.now ≡ None) }
        ensures never { IsErrOf result FileError.Failed → ⊥ }
        ensures kept { self.new ≡ self.old }
    {
        match self.store.place(name) {
            Some(place) => Ok(Vec::from_slice(alloc, self.store.bytes(place))?),
            None => Err(FileError::Absent),
        }
    }

    fn read_at(&mut self, name: &str, offset: u64, into: &mut [u8]) -> Result<usize, FileError>
        ensures bytes { IfOk result (λ n.
            part_of self.old name.now offset (length into.old) ≡ Some (take n into.new)) }
        ensures most { IfOk result (λ n. n ≤ length into.old) }
        ensures absent { IsErrOf result FileError.Absent ↔ (get self.old name.now ≡ None) }
        ensures only { IfErr result (λ e. e ≡ FileError.Absent) }
        ensures kept { self.new ≡ self.old }
    {
        let Some(place) = self.store.place(name) else {
            return Err(FileError::Absent);
        };
        Ok(copy_part(self.store.bytes(place), offset, into))
    }

    fn write(&mut self, name: &str, bytes: &[u8]) -> Result<(), FileError>
        ensures written { OnOk result (self.new ≡ insert self.old name.now bytes.now) }
        ensures only { IfErr result (λ e. e ≡ FileError.OutOfMemory) }
        ensures same { OnErr result (self.new ≡ self.old) }
    {
        self.store.put(name, bytes)?;
        Ok(())
    }

    fn create(&mut self, name: &str) -> Result<(), FileError>
        ensures created { OnOk result (self.new ≡ insert self.old name.now []) }
        ensures only { IfErr result (λ e. e ≡ FileError.OutOfMemory) }
        ensures same { OnErr result (self.new ≡ self.old) }
    {
        self.write(name, b"")
    }

    fn append(&mut self, name: &str, bytes: &[u8]) -> Result<(), FileError>
        ensures appended { OnOk result (self.new ≡ more name.now bytes.now self.old) }
        ensures only { IfErr result (λ e. e ≡ FileError.OutOfMemory) }
        ensures same { OnErr result (self.new ≡ self.old) }
    {
        self.store.append(name, bytes)?;
        Ok(())
    }
}
