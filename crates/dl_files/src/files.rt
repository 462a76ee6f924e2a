//! Files by name, which are read and written whole or piece by piece.
ghost use Rattle.std.specs.Prelude.{◌≡◌, ◌≢◌, ℕ, ◌≤◌, [], length, max, take, IfOk, IfErr, OnOk};
ghost use Rattle.dl_files.specs.Contents.{Begins, Holds, HoldsAt, with_file, with_more};
ghost use Rattle.dl_files.specs.Seen.{Seen, IsWritten, ReadStops, WriteStops, faults_in};

use crate::{Beginning, Faults, FileError};
use std::alloc::Global;

/// Files by name. They may tell their contents and the name of their last fault, and count faults.
pub trait Files {
    ghost seen: { Self → Seen };

    // The size of the largest piece, of files that keep it.
    ghost largest: { Self → ℕ };

    /// How many faults there were. Files that tell what they hold show those that aren't by names that aren't there, and
    /// other files show all.
    fn faults(&self) -> Faults
        ensures exact { faults_in (seen self.now).known result ≡ (seen self.now).faults }
        ensures within { result.failed ≤ result.all };

    /// The bytes of the file `name`, in memory from `alloc`.
    fn read(&mut self, alloc: Global, name: &str) -> Result<Vec<u8>, FileError>
        ensures bytes { IfOk result (λ bytes. Holds (seen self.old).known name.now bytes.items) }
        ensures ok { OnOk result (seen self.new ≡ seen self.old) }
        ensures err { IfErr result (ReadStops name.now (seen self.old) (seen self.new)) }
        ensures asked { largest self.new ≤ largest self.old };

    /// Copies the bytes of the file `name` from `offset` on into a piece, as many as fit, and gives their
    /// number. It takes no memory.
    fn read_at(&mut self, name: &str, offset: u64, into: &mut [u8]) -> Result<usize, FileError>
        ensures bytes { IfOk result (λ n.
            HoldsAt (seen self.old).known name.now offset (length into.old) (take n into.new)) }
        ensures most { IfOk result (λ n. n ≤ length into.old) }
        ensures ok { OnOk result (seen self.new ≡ seen self.old) }
        ensures err { IfErr result (ReadStops name.now (seen self.old) (seen self.new)) }
        ensures no_memory { IfErr result (λ e. e ≢ FileError.OutOfMemory) }
        ensures asked { largest self.new ≤ max (largest self.old) (length into.old) };

    /// Copies the first bytes of the file `name` into a piece, as many as fit. A file of which no other part can be
    /// read, for example a pipe, is read whole, in memory from `alloc`.
    fn begin(&mut self, alloc: Global, name: &str, into: &mut [u8]) -> Result<Beginning, FileError>
        ensures begins { IfOk result (Begins (seen self.old).known name.now (length into.old) into.new) }
        ensures ok { OnOk result (seen self.new ≡ seen self.old) }
        ensures err { IfErr result (ReadStops name.now (seen self.old) (seen self.new)) }
        ensures asked { largest self.new ≤ max (largest self.old) (length into.old) }
    {
        let _ = alloc;
        let n = self.read_at(name, 0, into)?;
        Ok(Beginning::Part(n))
    }

    /// Makes `bytes` the bytes of the file `name`. After `Failed` nothing is known of that file, and only of that one.
    fn write(&mut self, name: &str, bytes: &[u8]) -> Result<(), FileError>
        ensures written { OnOk result (IsWritten (with_file name.now bytes.now (seen self.old).known)
            (seen self.old) (seen self.new)) }
        ensures err { IfErr result (WriteStops name.now (seen self.old) (seen self.new)) }
        ensures asked { largest self.new ≤ largest self.old };

    /// Makes the file `name` an empty one. After `Failed` nothing is known of that file, and only of that one.
    fn create(&mut self, name: &str) -> Result<(), FileError>
        ensures created { OnOk result (IsWritten (with_file name.now [] (seen self.old).known)
            (seen self.old) (seen self.new)) }
        ensures err { IfErr result (WriteStops name.now (seen self.old) (seen self.new)) }
        ensures asked { largest self.new ≤ largest self.old };

    /// Puts `bytes` after those of the file `name`, which is made if it isn't there. After `Failed`
    /// nothing is known of that file, and only of that one.
    fn append(&mut self, name: &str, bytes: &[u8]) -> Result<(), FileError>
        ensures appended { OnOk result (IsWritten (with_more name.now bytes.now (seen self.old).known)
            (seen self.old) (seen self.new)) }
        ensures err { IfErr result (WriteStops name.now (seen self.old) (seen self.new)) }
        ensures asked { largest self.new ≤ largest self.old };
}
