//! A sink of bytes.
ghost use Rattle.std.specs.Prelude.{◌≡◌, ℕ, ◌<◌, ◌≤◌, List, length, Option, IfOk, OnOk, OnErr, IsErrOf};
ghost use Rattle.dl_files.specs.Count.{Rose};
ghost use Rattle.dl_files.specs.Taken.{with_taken};

use crate::SinkError;

/// Takes bytes in pieces. It may tell what it took, and counts faults.
pub trait Sink {
    ghost taken: { Self → Option (List ℕ) };

    ghost count: { Self → ℕ };

    /// How many faults there were. The count never falls, and counts as risen in every call once it
    /// is `u64::MAX`.
    fn faults(&self) -> u64
        ensures { result ≡ count self.now };

    /// Takes the first bytes of the piece and answers how many: at least one, unless it is empty. A
    /// refused piece leaves what was taken as it was.
    fn put(&mut self, bytes: &[u8]) -> Result<usize, SinkError>
        ensures took { IfOk result (λ n. taken self.new ≡ with_taken n bytes.now (taken self.old)) }
        ensures within { IfOk result (λ n. n ≤ length bytes.now) }
        ensures some { IfOk result (λ n. 0 < length bytes.now → 0 < n) }
        ensures same { OnErr result (taken self.new ≡ taken self.old) }
        ensures failed { IsErrOf result SinkError.Failed → Rose (count self.old) (count self.new) }
        ensures ok_steady { OnOk result (count self.new ≡ count self.old) }
        ensures memory_steady { IsErrOf result SinkError.OutOfMemory
            → count self.new ≡ count self.old }
        ensures counted { count self.old ≤ count self.new };
}
