//! What a sphere keeps for its role.
ghost use Rattle.std.specs.Prelude.{◌≡◌, ◌≤◌, None, false, IfOk, IfSome, IsOk, IsTrue, OnOk, OnErr, option_map};
ghost use Rattle.dl_entry.specs.Numbers.{most_threads};
ghost use Rattle.spec_log.specs.Log.{IsInput, AreFewBytes};
ghost use Rattle.dl_sphere.specs.Roles.{keeping_of, most_of, with_noted, with_raised, CanNote, CanRaise, has_room};

use crate::player::Player;
use crate::recording::Recording;
use dl_entry::{Commit, Input, OutOfMemory, PLAIN_THREADS};
use dl_thread::Load;

#[derive(Drop)]
pub(crate) enum Part {
    Plain,
    Recorded(Recording),
    Replayed(Replayed),
}

// A replay, and the loads of the pieces of its present commit.
#[derive(Drop)]
pub(crate) struct Replayed {
    pub(crate) player: Player,
    pub(crate) loads: Vec<Load>,
}

// Notes a commit, where the sphere is recorded.
pub(crate) fn note(
    part: &mut Part,
    commit: &Commit,
    short: bool,
    dma: Option<&[u8]>,
) -> Result<(), OutOfMemory>
    requires commit { CanNote commit.now short (keeping_of part.old) }
    requires dma { IfSome dma (λ bytes. AreFewBytes bytes.now) }
    ensures noted { OnOk result (keeping_of part.new ≡ with_noted commit.now short None (option_map (λ b. b.now) dma.entry) (keeping_of part.old)) }
    ensures same { OnErr result (keeping_of part.new ≡ keeping_of part.old) }
{
    match part {
        Part::Plain | Part::Replayed(_) => Ok(()),
        Part::Recorded(recording) => recording.commit(commit, short, None, dma),
    }
}

// Notes an interrupt, where the sphere is recorded.
pub(crate) fn note_interrupt(
    part: &mut Part,
    thread: u8,
    index: u32,
    value: u32,
) -> Result<(), OutOfMemory>
    requires { CanRaise thread index (keeping_of part.old) }
    ensures noted { OnOk result (keeping_of part.new ≡ with_raised thread index value (keeping_of part.old)) }
    ensures same { OnErr result (keeping_of part.new ≡ keeping_of part.old) }
{
    match part {
        Part::Plain | Part::Replayed(_) => Ok(()),
        Part::Recorded(recording) => recording.interrupt(thread, index, value),
    }
}

// How many threads the sphere may have.
pub(crate) fn threads_allowed(part: &Part) -> u8
    ensures value { result ≡ most_of (keeping_of part.now) }
    ensures few { result ≤ most_threads }
{
    match part {
        Part::Plain => PLAIN_THREADS,
        Part::Recorded(recording) => recording.threads(),
        Part::Replayed(replay) => replay.player.threads(),
    }
}

// Makes room for one commit with its record.
pub(crate) fn reserve(part: &mut Part) -> Result<(), OutOfMemory>
    ensures same { keeping_of part.new ≡ keeping_of part.old }
    ensures room { OnOk result (IsTrue (has_room part.new)) }
{
    match part {
        Part::Plain | Part::Replayed(_) => Ok(()),
        Part::Recorded(recording) => recording.reserve(),
    }
}

// Notes a serial step with its record, for which there is room, where the sphere is recorded.
pub(crate) fn note_reserved(part: &mut Part, commit: &Commit, input: Option<&Input>)
    requires commit { CanNote commit.now false (keeping_of part.old) }
    requires input { IfSome input (λ i. IsInput i.now) }
    requires room { IsTrue (has_room part.old) }
    ensures { keeping_of part.new ≡ with_noted commit.now false (option_map (λ i. i.now) input.entry) None (keeping_of part.old) }
{
    match part {
        Part::Plain | Part::Replayed(_) => {}
        Part::Recorded(recording) => match recording.commit(commit, false, input, None) {
            Ok(()) => {}
            Err(_) => unreachable!(),
        },
    }
}
