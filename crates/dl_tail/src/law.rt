//! Reading and writing undo each other.
ghost use Rattle.std.specs.Prelude.{◌≡◌, ℕ, ◌<◌, List, All, Ok};
ghost use Rattle.spec_tail.specs.Bytes.{tail_bytes};
ghost use Rattle.spec_tail.specs.Reading.{read_of};
ghost use Rattle.spec_tail.specs.Tails.{Tail, IsTail};

/// A tail's bytes are read as that tail. Bytes that are read as a tail are those that are written of it, and it is one.
pub fn reading_undoes_writing()
    ensures read { (tail : Tail) → IsTail tail → read_of (tail_bytes tail) ≡ Ok tail }
    ensures written { (bytes : List ℕ) (tail : Tail) → All (λ byte. byte < 256) bytes → read_of bytes ≡ Ok tail → tail_bytes tail ≡ bytes }
    ensures good { (bytes : List ℕ) (tail : Tail) → All (λ byte. byte < 256) bytes → read_of bytes ≡ Ok tail → IsTail tail }
{}
