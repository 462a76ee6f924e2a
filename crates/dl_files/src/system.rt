//! What the system gives of files, and what it takes.
ghost use Rattle.std.specs.Prelude.{◌≡◌, ◌≢◌, ℕ, ◌<◌, ◌≤◌, ◌↔◌, List, [], length, take, drop, false, Contains, Option, None, IfOk, IfErr, IfSome, IsSome, IsTrue, OnOk, OnErr, IsErrAnd, option_map};
ghost use Rattle.std.specs.FinMap.{get, insert};
ghost use Rattle.std.specs.IoError.{error_kind};
ghost use Rattle.std.specs.Io.KnownBytes.{ReadConsumes};
ghost use Rattle.dl_files.specs.Contents.{more};
ghost use Rattle.dl_files.specs.Count.{Rose};
ghost use Rattle.dl_files.specs.Taken.{with_taken};
ghost use Rattle.dl_files.specs.Told.{Told, IsOpened, Reads, Refuses, Spoils, held, holding, opening};

use std::io;
use std::io::ErrorKind;

/// The files of a system, by name. It may tell what they hold, which of them are pipes, how often one was opened, and how many
/// calls were refused.
pub trait System {
    /// A file that is read.
    type Reader: Drop;

    /// A file that is written at its end.
    type Writer: Drop;

    ghost told: { Self → Option Told };

    ghost whole: { Self.Reader → Option (List ℕ) };

    ghost left: { Self.Reader → Option (List ℕ) };

    ghost target: { Self.Writer → List ℕ };

    /// Whether any part of the file can be read, which is so of one that is no pipe.
    fn is_file(&self, name: &str) -> bool
        ensures file { IsTrue result → IfSome (told self.now) (λ t. Contains t.pipes name.now → ⊥) }
        ensures pipe { result ≡ false → IfSome (told self.now)
            (λ t. IsSome (get t.holds name.now) → Contains t.pipes name.now) };

    /// The file, at its first byte. A name that isn't there is not found, whatever else fails.
    fn open(&mut self, name: &str) -> io::Result<Self::Reader>
        ensures opened { IfOk result
            (λ file. IsOpened (held (told self.old)) name.now (whole file) (left file)) }
        ensures absent { IfSome (held (told self.old))
            (λ m. IsErrAnd result (λ e. error_kind e ≡ ErrorKind.NotFound) ↔ (get m name.now ≡ None)) }
        ensures ok { OnOk result (told self.new ≡ opening (told self.old)) }
        ensures unfound { IfErr result (λ e. error_kind e ≡ ErrorKind.NotFound
            → told self.new ≡ opening (told self.old)) }
        ensures refused { IfErr result (λ e. error_kind e ≢ ErrorKind.NotFound
            → Refuses (opening (told self.old)) (told self.new)) };

    /// Goes on at this byte.
    fn seek(&mut self, file: &mut Self::Reader, offset: u64) -> io::Result<()>
        ensures moved { OnOk result (left file.new ≡ option_map (drop offset) (whole file.old)) }
        ensures ok { OnOk result (told self.new ≡ told self.old) }
        ensures refused { OnErr result (Refuses (told self.old) (told self.new)) };

    /// Copies the next bytes and gives their number: at least one, unless there is no other or no room.
    fn read(&mut self, file: &mut Self::Reader, into: &mut [u8]) -> io::Result<usize>
        ensures within { IfOk result (λ n. n ≤ length into.old) }
        ensures bytes { ReadConsumes (left file.old) (left file.new) result into.new }
        ensures ok { OnOk result (told self.new ≡ told self.old) }
        ensures refused { OnErr result (Refuses (told self.old) (told self.new)) }
        ensures interrupted { IfErr result (λ e. error_kind e ≡ ErrorKind.Interrupted
            → Reads (told self.old) (told self.new)) };

    /// The file without bytes, which is made if it isn't there.
    fn create(&mut self, name: &str) -> io::Result<Self::Writer>
        ensures created { OnOk result
            (told self.new ≡ holding (λ m. insert m name.now []) (opening (told self.old))) }
        ensures named { IfOk result (λ file. IfSome (told self.old) (λ _. target file ≡ name.now)) }
        ensures refused { OnErr result (Spoils name.now (opening (told self.old)) (told self.new)) };

    /// The file with its bytes, which is made if it isn't there.
    fn add(&mut self, name: &str) -> io::Result<Self::Writer>
        ensures added { OnOk result
            (told self.new ≡ holding (more name.now []) (opening (told self.old))) }
        ensures named { IfOk result (λ file. IfSome (told self.old) (λ _. target file ≡ name.now)) }
        ensures refused { OnErr result (Spoils name.now (opening (told self.old)) (told self.new)) };

    /// Puts the first of the bytes at the end of the file and gives their number.
    fn write(&mut self, file: &mut Self::Writer, bytes: &[u8]) -> io::Result<usize>
        ensures within { IfOk result (λ n. n ≤ length bytes.now) }
        ensures some { IfSome (told self.old)
            (λ _. IfOk result (λ n. 0 < length bytes.now → 0 < n)) }
        ensures wrote { IfOk result (λ n.
            told self.new ≡ holding (more (target file.old) (take n bytes.now)) (told self.old)) }
        ensures named { target file.new ≡ target file.old }
        ensures refused { OnErr result (Refuses (told self.old) (told self.new)) }
        ensures interrupted { IfErr result (λ e. error_kind e ≡ ErrorKind.Interrupted
            → Reads (told self.old) (told self.new)) };
}

/// What takes bytes at its end. It may tell what it holds, and then also how many calls were refused.
pub trait Output {
    ghost holds: { Self → Option (List ℕ) };

    ghost refusals: { Self → ℕ };

    /// Takes the first of the bytes and gives their number.
    fn write(&mut self, bytes: &[u8]) -> io::Result<usize>
        ensures within { IfOk result (λ n. n ≤ length bytes.now) }
        ensures some { IfSome (holds self.old)
            (λ _. IfOk result (λ n. 0 < length bytes.now → 0 < n)) }
        ensures wrote { IfOk result (λ n. holds self.new ≡ with_taken n bytes.now (holds self.old)) }
        ensures refused { OnErr result (holds self.new ≡ holds self.old) }
        ensures steady { OnOk result (refusals self.new ≡ refusals self.old) }
        ensures grows { refusals self.old ≤ refusals self.new }
        ensures counted { IfSome (holds self.old)
            (λ _. OnErr result (Rose (refusals self.old) (refusals self.new))) };
}
