//! The commits of a sphere that is replayed, each judged by its log.
ghost use Rattle.std.specs.Prelude.{◌≡◌, ℕ, Bool, ◌+◌, ◌<◌, ◌≤◌, Some, IfOk, OnErr, OnOk, length, option_map, slice_get};
ghost use Rattle.spec_isa.specs.declared.thread.Parts.{Parts};
ghost use Rattle.spec_engine.specs.declared.answers.How.{How};
ghost use Rattle.spec_kernel.specs.Devices.{Devices};
ghost use Rattle.dl_kernel.specs.InOrder.{AreSame};
ghost use Rattle.dl_mode.specs.Strata.{begins};
ghost use Rattle.spec_play.specs.Turns.{TurnOfDma};
ghost use Rattle.spec_engine.specs.Closing.{is_piece};
ghost use Rattle.spec_sphere.specs.sphere.Commits.{chunk_moved, piece_moved, serial_moved, dma_moved};
ghost use Rattle.dl_sphere.specs.Inside.{cursor_in, replayed_at, IsAt};
ghost use Rattle.dl_sphere.specs.InStrata.{HasRoomIn, IsPutIn};
ghost use Rattle.dl_sphere.specs.Moving.{CanCommit, MayCommit, came};

use crate::commits::{is_piece, joined_commit};
use crate::moved::Moved;
use crate::part::Replayed;
use crate::words;
use dl_chunk::Chunk;
use dl_entry::{Commit, OutOfMemory};
use dl_kernel::{InOrder, Past, dma_commit, serial_commit, thread_at};
use dl_replay::Verdict;
use dl_sig::Sig;

// Commits a part of the thread's commit: a piece, or the last one, unless the replay leaves its log there.
pub(crate) fn commit_part<G: Sig>(
    replay: &mut Replayed,
    past: &mut Past,
    thread: u8,
    chunk: &Chunk<G>,
) -> Result<Moved, OutOfMemory>
    ghost how: { How }
    requires thread { thread < length past.old.state.threads }
    requires chunk { (s : ℕ) × CanCommit s (replayed_at past.old replay.old) thread how chunk.now.chunk }
    requires at { IsAt past.old replay.old }
    ensures moved { IfOk result (λ m. (short : Bool) (d : Devices) →
        came m (replayed_at past.new replay.new) d
        ≡ chunk_moved thread (is_piece how) short chunk.now.chunk.done d (replayed_at past.old replay.old)) }
    ensures at { IsAt past.new replay.new }
    ensures log { replay.new.player.log ≡ replay.old.player.log }
    ensures still { OnErr result (replayed_at past.new replay.new ≡ replayed_at past.old replay.old) }
{
    // the proof sees here that the thread is one of the sphere
    let _ = thread_at(&past.state.threads, thread);
    let words = words::copied(past.alloc, chunk.words())?;
    if is_piece(chunk) {
        commit_piece(replay, past, thread, chunk)?;
        return Ok(Moved::Piece(words));
    }
    let size = replay.player.pieces() + chunk.n();
    let commit = joined_commit(past.alloc, thread, size, &replay.loads, chunk)?;
    make_room(&mut past.commits, thread, replay)?;
    match replay
        .player
        .end_chunk(thread, chunk.state(), size, &mut past.state)
    {
        Verdict::Went => {
            put(&mut past.commits, thread, replay.player.begins(), commit);
            replay.loads.clear();
            Ok(Moved::Granted(words))
        }
        Verdict::Diverged(why) => Ok(Moved::Diverged(past.state.commits, why)),
    }
}

// Commits a piece of the thread's commit.
fn commit_piece<G: Sig>(
    replay: &mut Replayed,
    past: &mut Past,
    thread: u8,
    chunk: &Chunk<G>,
) -> Result<(), OutOfMemory>
    requires thread { thread < length past.old.state.threads }
    requires may { MayCommit (cursor_in past.old replay.old) thread }
    requires fits { replay.old.player.total + chunk.now.chunk.done.n ≤ replay.old.player.log.s }
    requires same { (t : Parts) → slice_get past.old.state.threads thread ≡ Some t →
        chunk.now.chunk.done.thread.commits ≡ t.commits }
    requires at { IsAt past.old replay.old }
    ensures moved { OnOk result ((d : Devices) → replayed_at past.new replay.new
        ≡ (piece_moved (cursor_in past.old replay.old) thread chunk.now.chunk.done d (replayed_at past.old replay.old)).sphere) }
    ensures at { IsAt past.new replay.new }
    ensures log { replay.new.player.log ≡ replay.old.player.log }
    ensures still { OnErr result (replayed_at past.new replay.new ≡ replayed_at past.old replay.old) }
{
    // the proof sees here that the thread is one of the sphere
    let _ = thread_at(&past.state.threads, thread);
    replay.loads.extend_from_slice(chunk.loads())?;
    replay.player.accept_piece(thread, chunk.n());
    past.state.threads.set(thread, chunk.state());
    Ok(())
}

// Does the serial step of the thread, unless the replay leaves its log there.
pub(crate) fn serve_step(
    replay: &mut Replayed,
    past: &mut Past,
    thread: u8,
) -> Result<Moved, OutOfMemory>
    requires may { MayCommit (cursor_in past.old replay.old) thread }
    requires thread { thread < length past.old.state.threads }
    requires at { IsAt past.old replay.old }
    ensures moved { IfOk result (λ m. (moment : ℕ) (t : Parts) (d : Devices) →
        slice_get past.old.state.threads thread ≡ Some t →
        came m (replayed_at past.new replay.new) d ≡ serial_moved thread moment t d (replayed_at past.old replay.old)) }
    ensures at { IsAt past.new replay.new }
    ensures log { replay.new.player.log ≡ replay.old.player.log }
    ensures still { OnErr result (replayed_at past.new replay.new ≡ replayed_at past.old replay.old) }
{
    // the proof sees here that the thread is one of the sphere
    let _ = thread_at(&past.state.threads, thread);
    make_room(&mut past.commits, thread, replay)?;
    match replay.player.serve_step(thread, &mut past.state)? {
        Ok(left) => {
            let commit = serial_commit(thread, left.loads, left.outputs);
            put(&mut past.commits, thread, replay.player.begins(), commit);
            replay.loads.clear();
            Ok(Moved::Granted(left.words))
        }
        Err(why) => Ok(Moved::Diverged(past.state.commits, why)),
    }
}

// Does the DMA, unless the replay leaves its log there.
pub(crate) fn serve_dma(replay: &mut Replayed, past: &mut Past) -> Result<Moved, OutOfMemory>
    requires turn { replay.old.player.now ≡ TurnOfDma }
    requires at { IsAt past.old replay.old }
    ensures moved { IfOk result (λ m. (d : Devices) →
        Some (came m (replayed_at past.new replay.new) d) ≡ dma_moved d (replayed_at past.old replay.old)) }
    ensures at { IsAt past.new replay.new }
    ensures log { replay.new.player.log ≡ replay.old.player.log }
    ensures still { OnErr result (replayed_at past.new replay.new ≡ replayed_at past.old replay.old) }
{
    past.commits.reserve()?;
    match replay.player.serve_dma(&mut past.state)? {
        Ok(words) => {
            past.commits.push_reserved(dma_commit(past.alloc));
            replay.loads.clear();
            Ok(Moved::Granted(words))
        }
        Err(why) => Ok(Moved::Diverged(past.state.commits, why)),
    }
}

// Makes room for a whole commit of a thread, in strata in the thread's list too.
fn make_room(commits: &mut InOrder, thread: u8, replay: &Replayed) -> Result<(), OutOfMemory>
    ensures same { AreSame commits.new commits.old }
    ensures ok { OnOk result (HasRoomIn thread (option_map begins replay.now.player.strata) commits.new) }
{
    match replay.player.begins() {
        None => commits.reserve(),
        Some(_) => commits.reserve_for(thread),
    }
}

// Puts a whole commit of a thread, for which there is room, after all others, or in strata at the end of the thread's list.
// Once a stratum is over, none of its commits waits.
fn put(commits: &mut InOrder, thread: u8, begins: Option<bool>, commit: Commit)
    requires { HasRoomIn thread begins commits.old }
    ensures { IsPutIn thread begins commit commits.old commits.new }
{
    match begins {
        None => commits.push_reserved(commit),
        Some(false) => commits.put_reserved(thread, commit),
        Some(true) => commits.put_last(thread, commit),
    }
}
