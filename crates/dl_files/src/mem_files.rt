//! Files in memory whose calls fail as a list says.
ghost use Rattle.std.specs.Prelude.{◌≡◌, ◌≢◌, ◌↔◌, ◌≤◌, [], length, max, take, true, false, None, Some, IsSome, IfOk, IfErr, OnOk, OnErr, IsErrOf};
ghost use Rattle.std.specs.FinMap.{get, insert};
ghost use Rattle.dl_files.specs.Calls.{unmade, FailsNext, passed, faulted};
ghost use Rattle.dl_files.specs.Contents.{part_of, more, SameBut};
ghost use Rattle.dl_files.specs.Seen.{telling};

use crate::calls::Calls;
use crate::part::copy_part;
use crate::store::Store;
use crate::{Faults, FileError, Files, GoodFiles};
use std::alloc::{AllocError, Global};
use std::marker::Model;

/// Files in memory some of whose calls fail, and which keep the size of the largest piece that was asked for. Calls that read, write, create or append are numbered
/// together, from 0 in the order in which they are made. A read of an absent name takes no number, since
/// the name is looked up first; nor does a call for which memory ran out.
#[derive(Drop)]
pub struct MemFiles {
    store: Store,
    calls: Calls,
    // The place of the last fault's name in the store.
    last: Option<usize>,
    // Whether the last call that was to change a file failed.
    unwritten: bool,
    // The size of the largest piece that was asked for.
    largest: usize,
}

impl Model for MemFiles {
    ghost use Rattle.std.specs.Prelude.{◌<◌, length, IfSome, option_and_then};
    ghost use Rattle.dl_files.specs.Entries.{contents_of, name_at};
    ghost use Rattle.dl_files.specs.Staged.{StagedFiles, staged_files_code};

    ghost Value = { StagedFiles };

    ghost coded = { staged_files_code };

    ghost view = { λ files. record {
      contents = contents_of files.store;
      calls = files.calls;
      last_fault = option_and_then (name_at files.store) files.last;
      unwritten = files.unwritten;
      largest = files.largest;
    } };

    ghost invariant = { λ files. IfSome files.last (λ place. place < length files.store) };
}

impl MemFiles {
    /// These files, of which the calls with the numbers in `failing` will fail. If memory runs out, the
    /// files are given up.
    pub fn new(alloc: Global, files: GoodFiles, failing: &[u64]) -> Result<Self, FileError>
        ensures ok { IfOk result (λ mem. mem ≡ record {
          contents = files;
          calls = unmade failing.now;
          last_fault = None;
          unwritten = false;
          largest = 0;
        }) }
        ensures only { IfErr result (λ e. e ≡ FileError.OutOfMemory) }
    {
        Ok(Self {
            calls: Calls::new(alloc, failing)?,
            store: files.into_store(),
            last: None,
            unwritten: false,
            largest: 0,
        })
    }

    // The next call, which is to change a file, fails at the name, which is added without bytes if it is new.
    fn fault(&mut self, name: &str) -> Result<(), AllocError>
        ensures others { OnOk result
            (SameBut name.now (Some self.old.contents) (Some self.new.contents)) }
        ensures fault { OnOk result (self.new ≡ record self.new {
          calls = faulted self.old.calls;
          last_fault = Some name.now;
          unwritten = true;
        }) }
        ensures asked { self.new.largest ≡ self.old.largest }
        ensures same { OnErr result (self.new ≡ self.old) }
    {
        let place = self.store.touch(name)?;
        self.calls.fault();
        self.last = Some(place);
        self.unwritten = true;
        Ok(())
    }
}

impl Files for MemFiles {
    ghost seen = { λ files. record (telling files.contents files.calls.faults files.last_fault) { unwritten = files.unwritten } };

    ghost largest = { λ files. files.largest };

    // No absent name is a fault.
    fn faults(&self) -> Faults
        ensures all { result.all ≡ self.now.calls.faults }
        ensures failed { result.failed ≡ self.now.calls.faults }
    {
        let failed = self.calls.faults();
        Faults {
            all: failed,
            failed,
        }
    }

    fn read(&mut self, alloc: Global, name: &str) -> Result<Vec<u8>, FileError>
        ensures bytes { IfOk result (λ bytes. get self.old.contents name.now ≡ Some bytes.items) }
        ensures absent { IsErrOf result FileError.Absent ↔ (get self.old.contents name.now ≡ None) }
        ensures passes { OnOk result (FailsNext self.old.calls → ⊥) }
        ensures fails { IsErrOf result FileError.Failed → FailsNext self.old.calls }
        ensures ok { OnOk result (self.new ≡ record self.old { calls = passed self.old.calls }) }
        ensures fault { IsErrOf result FileError.Failed → self.new ≡ record self.old {
          calls = faulted self.old.calls;
          last_fault = Some name.now;
        } }
        ensures same { IfErr result (λ e. e ≢ FileError.Failed → self.new ≡ self.old) }
        ensures asked { self.new.largest ≡ self.old.largest }
    {
        let Some(place) = self.store.place(name) else {
            return Err(FileError::Absent);
        };
        if self.calls.fails_next() {
            self.calls.fault();
            self.last = Some(place);
            return Err(FileError::Failed);
        }
        let bytes = Vec::from_slice(alloc, self.store.bytes(place))?;
        self.calls.pass();
        Ok(bytes)
    }

    fn read_at(&mut self, name: &str, offset: u64, into: &mut [u8]) -> Result<usize, FileError>
        ensures bytes { IfOk result (λ n.
            part_of self.old.contents name.now offset (length into.old) ≡ Some (take n into.new)) }
        ensures most { IfOk result (λ n. n ≤ length into.old) }
        ensures absent { IsErrOf result FileError.Absent ↔ (get self.old.contents name.now ≡ None) }
        ensures no_memory { IfErr result (λ e. e ≢ FileError.OutOfMemory) }
        ensures passes { OnOk result (FailsNext self.old.calls → ⊥) }
        ensures fails { IsErrOf result FileError.Failed → FailsNext self.old.calls }
        ensures ok { OnOk result (self.new ≡ record self.old {
          calls = passed self.old.calls;
          largest = max self.old.largest (length into.old);
        }) }
        ensures fault { IsErrOf result FileError.Failed → self.new ≡ record self.old {
          calls = faulted self.old.calls;
          last_fault = Some name.now;
          largest = max self.old.largest (length into.old);
        } }
        ensures same { IfErr result (λ e. e ≢ FileError.Failed
            → self.new ≡ record self.old { largest = max self.old.largest (length into.old) }) }
        ensures asked { self.new.largest ≡ max self.old.largest (length into.old) }
    {
        self.largest = self.largest.max(into.len());
        let Some(place) = self.store.place(name) else {
            return Err(FileError::Absent);
        };
        if self.calls.fails_next() {
            self.calls.fault();
            self.last = Some(place);
            return Err(FileError::Failed);
        }
        let count = copy_part(self.store.bytes(place), offset, into);
        self.calls.pass();
        Ok(count)
    }

    fn write(&mut self, name: &str, bytes: &[u8]) -> Result<(), FileError>
        ensures passes { OnOk result (FailsNext self.old.calls → ⊥) }
        ensures fails { IsErrOf result FileError.Failed → FailsNext self.old.calls }
        ensures written { OnOk result (self.new ≡ record self.old {
          contents = insert self.old.contents name.now bytes.now;
          calls = passed self.old.calls;
          unwritten = false;
        }) }
        ensures others { IsErrOf result FileError.Failed
            → SameBut name.now (Some self.old.contents) (Some self.new.contents) }
        ensures fault { IsErrOf result FileError.Failed → self.new ≡ record self.new {
          calls = faulted self.old.calls;
          last_fault = Some name.now;
          unwritten = true;
        } }
        ensures same { IsErrOf result FileError.OutOfMemory → self.new ≡ self.old }
        ensures not_absent { IfErr result (λ e. e ≢ FileError.Absent) }
        ensures asked { self.new.largest ≡ self.old.largest }
    {
        if self.calls.fails_next() {
            self.fault(name)?;
            return Err(FileError::Failed);
        }
        self.store.put(name, bytes)?;
        self.calls.pass();
        self.unwritten = false;
        Ok(())
    }

    fn create(&mut self, name: &str) -> Result<(), FileError>
        ensures passes { OnOk result (FailsNext self.old.calls → ⊥) }
        ensures fails { IsErrOf result FileError.Failed → FailsNext self.old.calls }
        ensures created { OnOk result (self.new ≡ record self.old {
          contents = insert self.old.contents name.now [];
          calls = passed self.old.calls;
          unwritten = false;
        }) }
        ensures others { IsErrOf result FileError.Failed
            → SameBut name.now (Some self.old.contents) (Some self.new.contents) }
        ensures fault { IsErrOf result FileError.Failed → self.new ≡ record self.new {
          calls = faulted self.old.calls;
          last_fault = Some name.now;
          unwritten = true;
        } }
        ensures same { IsErrOf result FileError.OutOfMemory → self.new ≡ self.old }
        ensures not_absent { IfErr result (λ e. e ≢ FileError.Absent) }
        ensures asked { self.new.largest ≡ self.old.largest }
    {
        self.write(name, b"")
    }

    fn append(&mut self, name: &str, bytes: &[u8]) -> Result<(), FileError>
        ensures passes { OnOk result (FailsNext self.old.calls → ⊥) }
        ensures fails { IsErrOf result FileError.Failed → FailsNext self.old.calls }
        ensures appended { OnOk result (self.new ≡ record self.old {
          contents = more name.now bytes.now self.old.contents;
          calls = passed self.old.calls;
          unwritten = false;
        }) }
        ensures others { IsErrOf result FileError.Failed
            → SameBut name.now (Some self.old.contents) (Some self.new.contents) }
        ensures fault { IsErrOf result FileError.Failed → self.new ≡ record self.new {
          calls = faulted self.old.calls;
          last_fault = Some name.now;
          unwritten = true;
        } }
        ensures same { IsErrOf result FileError.OutOfMemory → self.new ≡ self.old }
        ensures not_absent { IfErr result (λ e. e ≢ FileError.Absent) }
        ensures asked { self.new.largest ≡ self.old.largest }
    {
        if self.calls.fails_next() {
            self.fault(name)?;
            return Err(FileError::Failed);
        }
        self.store.append(name, bytes)?;
        self.calls.pass();
        self.unwritten = false;
        Ok(())
    }
}
