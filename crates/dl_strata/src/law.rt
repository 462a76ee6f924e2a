//! Reading and writing undo each other.
ghost use Rattle.std.specs.Prelude.{◌≡◌, ℕ, ◌<◌, List, All, Ok};
ghost use Rattle.spec_strata.specs.Bytes.{strata_bytes};
ghost use Rattle.spec_strata.specs.Reading.{read_of};
ghost use Rattle.spec_strata.specs.Strata.{AreStrata};
ghost use Rattle.spec_strata.specs.declared.strata.StrataParts.{StrataParts};

/// The bytes of strata are read as these strata, and bytes that are read as strata are those that are written of them.
pub fn reading_undoes_writing()
    ensures read { (strata : StrataParts) → AreStrata strata → read_of (strata_bytes strata) ≡ Ok strata }
    ensures written { (bytes : List ℕ) (strata : StrataParts)
        → All (λ byte. byte < 256) bytes → read_of bytes ≡ Ok strata → strata_bytes strata ≡ bytes }
{}
