//! An image and a log, which a command plays on it.
ghost use Rattle.std.specs.Prelude.{◌≡◌, ◌∷◌, [], true, Some, Ok, IfOk, IfErr, OnOk};
ghost use Rattle.dl_files.specs.Contents.{Contents};
ghost use Rattle.dl_logio.specs.Files.{read_view};
ghost use Rattle.dl_words.specs.Commands.{playback_view as named};
ghost use Rattle.dl_words.specs.Numbers.{is_size};
ghost use Rattle.spec_program.specs.Operands.{playback_at, playback_in, playback_on, playback_reads};
ghost use Rattle.dl_gather.specs.Halts.{Halts, IsNotUsage, Refuses};
ghost use Rattle.dl_gather.specs.Inputs.{playback_view};

use crate::halt::Halt;
use crate::images::load_image;
use crate::inputs::PlaybackRead;
use crate::logs::good_log;
use crate::reading::{read_file, read_log};
use dl_files::Files;
use dl_logio::LogRead;
use dl_words::Playback;
use std::alloc::Global;

/// The image in the one file, in a memory of that many bytes, and the log in the other. Both are read before one is looked at.
pub fn read_playback<F: Files>(
    alloc: Global,
    files: &mut F,
    playback: &Playback<'_>,
) -> Result<PlaybackRead, Halt>
    ensures playback { IfOk result (λ read. (m : Contents) → (F.seen files.old).known ≡ Some m
        → playback_at m (named playback.now) ≡ Ok (playback_view read)) }
    ensures halt { IfErr result (Halts (λ m. playback_at m (named playback.now)) (λ m. playback_reads (named playback.now))
        (F.seen files.old) (F.seen files.new)) }
    ensures usage { IfErr result IsNotUsage }
    ensures same { OnOk result (F.seen files.new ≡ F.seen files.old) }
{
    let program = read_file(alloc, files, playback.image)?;
    read_beside(alloc, files, playback, &program)
}

// The program is read.
fn read_beside<F: Files>(
    alloc: Global,
    files: &mut F,
    playback: &Playback<'_>,
    program: &[u8],
) -> Result<PlaybackRead, Halt>
    ensures playback { IfOk result (λ read. (m : Contents) → (F.seen files.old).known ≡ Some m
        → playback_on m (named playback.now) program.now ≡ Ok (playback_view read)) }
    ensures halt { IfErr result (Halts (λ m. playback_on m (named playback.now) program.now) (λ m. playback.now.log.now ∷ [])
        (F.seen files.old) (F.seen files.new)) }
    ensures usage { IfErr result IsNotUsage }
    ensures same { OnOk result (F.seen files.new ≡ F.seen files.old) }
{
    let log = read_log(alloc, files, playback.log)?;
    good_playback(alloc, playback.memory, program, log)
}

// Both files are read; the image is looked at first.
fn good_playback(
    alloc: Global,
    memory: u32,
    program: &[u8],
    log: LogRead,
) -> Result<PlaybackRead, Halt>
    requires { is_size memory ≡ true }
    ensures playback { IfOk result (λ read. playback_in memory program.now (read_view log) ≡ Ok (playback_view read)) }
    ensures halt { IfErr result (Refuses (playback_in memory program.now (read_view log))) }
{
    let image = load_image(alloc, 0, program, memory)?;
    let log = good_log(alloc, 0, log)?;
    Ok(PlaybackRead { image, log })
}
