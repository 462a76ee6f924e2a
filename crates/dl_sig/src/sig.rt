//! What every kind of signature does.
ghost use Rattle.std.specs.Prelude.{◌≡◌, true, IfOk};
ghost use Rattle.spec_engine.specs.Signatures.{Signature, is_size, nothing, insert as with_line, covers, hits};
ghost use Rattle.dl_sig.specs.Unions.{union};

use std::alloc::{AllocError, Global};

/// A signature: the lines that were inserted, and some that were not, because lines share places.
pub trait Sig: Drop {
    /// Its size in bits, and the places set in its two banks.
    ghost marks: { Self → Signature };

    /// A signature of no line. `bits` is a power of two from 64 to 2,048. The one call that takes memory.
    fn empty(alloc: Global, bits: u32) -> Result<Self, AllocError>
        requires { is_size bits ≡ true }
        ensures { IfOk result (λ g. marks g ≡ nothing bits) };

    /// Marks a line.
    fn insert(&mut self, line: u32)
        ensures { marks self.new ≡ with_line line (marks self.old) };

    /// Forgets every line.
    fn clear(&mut self)
        ensures { marks self.new ≡ nothing (marks self.old).bits };

    /// Marks what another signature of the same size has marked: both banks take the union.
    fn join(&mut self, other: &Self)
        requires { (marks other.now).bits ≡ (marks self.old).bits }
        ensures { marks self.new ≡ union (marks self.old) (marks other.now) };

    /// Whether each bank shares a place with that of another signature of the same size.
    fn hits(&self, other: &Self) -> bool
        requires { (marks other.now).bits ≡ (marks self.now).bits }
        ensures { result ≡ hits (marks self.now) (marks other.now) };

    /// Whether both places of the line are set.
    fn covers(&self, line: u32) -> bool
        ensures { result ≡ covers (marks self.now) line };
}
