//! Reading and writing undo each other.
ghost use Rattle.std.specs.Prelude.{◌≡◌, ℕ, ◌<◌, List, All, Ok};
ghost use Rattle.spec_log.specs.Bytes.{log_bytes};
ghost use Rattle.spec_log.specs.Log.{IsLog};
ghost use Rattle.spec_log.specs.Reading.{read_of};
ghost use Rattle.spec_log.specs.declared.log.LogParts.{LogParts};

/// A log's bytes are read as that log, and bytes that are read as a log are those that are written of it.
pub fn reading_undoes_writing()
    ensures read { (log : LogParts) → IsLog log → read_of (log_bytes log) ≡ Ok log }
    ensures written { (bytes : List ℕ) (log : LogParts)
        → All (λ byte. byte < 256) bytes → read_of bytes ≡ Ok log → log_bytes log ≡ bytes }
{}
