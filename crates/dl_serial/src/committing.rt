//! Commits of a play, each judged by its log: it goes as it is logged, or the play ends before it.
ghost use Rattle.std.specs.Prelude.{◌≡◌, ◌+◌, ◌≤◌, ◌++◌, ◌∷◌, [], Some, IsTrue, OnOk, OnErr, length, slice_get};
ghost use Rattle.spec_isa.specs.declared.thread.Parts.{Parts};
ghost use Rattle.spec_isa.specs.Runs.{Run};
ghost use Rattle.spec_isa.specs.Words.{lays};
ghost use Rattle.spec_isa.specs.Inside.{AreInside};
ghost use Rattle.spec_play.specs.Progress.{position};
ghost use Rattle.spec_play.specs.Turns.{Turn, TurnOfDma};
ghost use Rattle.spec_play.specs.Verdicts.{chunk_verdict, serial_verdict};
ghost use Rattle.spec_play.specs.Transfers.{dma_verdict};
ghost use Rattle.spec_play.specs.Plays.{dma_settled, settled};
ghost use Rattle.spec_query.specs.Stores.{stores_of, words_gone, words_transferred};
ghost use Rattle.dl_kernel.specs.InOrder.{listed};
ghost use Rattle.dl_serial.specs.Chunks.{chunk_of};
ghost use Rattle.dl_entry.specs.declared.Actor.{Actor};
ghost use Rattle.dl_serial.specs.Playing.{HaveCome, IsPlaying, played_in, progress_in, with_stores};

use crate::chunk::Chunk;
use crate::overlay::drain;
use crate::sphere::Sphere;
use crate::storing::{Storer, note_stores};
use dl_entry::{Commit, OutOfMemory};
use dl_kernel::{Past, StepResult, chunk_commit, dma_commit, serial_commit, thread_at};
use dl_mode::Mode;
use dl_replay::{Replayer, Verdict};
use dl_wbuf::Buffer;
use spec_query::Store;

/// Commits a chunk that a thread has run. Its words lie over the memory.
pub fn commit_chunk<M: Mode>(
    replayer: &mut Replayer<M>,
    sphere: &mut Sphere,
    number: u8,
    chunk: Chunk,
) -> Result<(), OutOfMemory>
    requires playing { IsPlaying replayer.old sphere.old }
    requires turn { replayer.old.now ≡ Turn number }
    requires few { chunk.thread.commits ≤ sphere.old.past.state.commits }
    requires inside { AreInside (length sphere.old.past.state.memory) sphere.old.words.words }
    ensures playing { IsPlaying replayer.new sphere.new }
    ensures log { replayer.new.log ≡ replayer.old.log }
    ensures came { (r : Run) → chunk ≡ chunk_of r → sphere.old.words.words ≡ r.words →
        let log = replayer.old.log in
        let y = played_in replayer.old sphere.old.past in
        let v = chunk_verdict log y.progress y.used number r in
        let stores = with_stores sphere.old.stores.items y (Actor.Thread number) (words_gone v) in
        OnOk result (HaveCome log (settled log y number v) stores replayer.new sphere.new) }
{
    sphere.past.commits.reserve()?;
    match replayer.end_chunk(number, &chunk.thread, chunk.n, &mut sphere.past.state) {
        Verdict::Went => {
            let commit = chunk_commit(sphere.past.alloc, number, chunk.n, chunk.loads);
            note(
                &mut sphere.past,
                &mut sphere.stores,
                commit,
                &mut sphere.words,
            )
        }
        Verdict::Diverged(_) => Ok(()),
    }
}

/// Does the serial step of a thread.
pub fn serve_step<M: Mode>(
    replayer: &mut Replayer<M>,
    sphere: &mut Sphere,
    number: u8,
) -> Result<(), OutOfMemory>
    requires playing { IsPlaying replayer.old sphere.old }
    requires turn { replayer.old.now ≡ Turn number }
    ensures playing { IsPlaying replayer.new sphere.new }
    ensures log { replayer.new.log ≡ replayer.old.log }
    ensures came { (t : Parts) → slice_get sphere.old.past.state.threads number ≡ Some t →
        let log = replayer.old.log in
        let y = played_in replayer.old sphere.old.past in
        let v = serial_verdict log y.progress y.used number y.threads t y.memory in
        let stores = with_stores sphere.old.stores.items y (Actor.Thread number) (words_gone v) in
        OnOk result (HaveCome log (settled log y number v) stores replayer.new sphere.new) }
{
    // a memory has whole words, and a thread its register 0
    let _ = sphere.past.state.memory.size();
    let _ = thread_at(&sphere.past.state.threads, number).parts();
    sphere.past.commits.reserve()?;
    match replayer.serve_step(number, &mut sphere.past.state)? {
        Ok(
            StepResult {
                mut words,
                loads,
                outputs,
                ..
            },
        ) => {
            let commit = serial_commit(number, loads, outputs);
            note(&mut sphere.past, &mut sphere.stores, commit, &mut words)
        }
        Err(_) => Ok(()),
    }
}

/// Does the DMA.
pub fn serve_dma<M: Mode>(
    replayer: &mut Replayer<M>,
    sphere: &mut Sphere,
) -> Result<(), OutOfMemory>
    requires playing { IsPlaying replayer.old sphere.old }
    requires turn { replayer.old.now ≡ TurnOfDma }
    ensures playing { IsPlaying replayer.new sphere.new }
    ensures log { replayer.new.log ≡ replayer.old.log }
    ensures came { let log = replayer.old.log in
        let y = played_in replayer.old sphere.old.past in
        let v = dma_verdict log y.progress y.used in
        let stores = with_stores sphere.old.stores.items y Actor.Dma (words_transferred v) in
        OnOk result (HaveCome log (dma_settled log y v) stores replayer.new sphere.new) }
{
    // a memory has whole words
    let _ = sphere.past.state.memory.size();
    sphere.past.commits.reserve()?;
    match replayer.serve_dma(&mut sphere.past.state)? {
        Ok(mut words) => {
            let commit = dma_commit(sphere.past.alloc);
            note(&mut sphere.past, &mut sphere.stores, commit, &mut words)
        }
        Err(_) => Ok(()),
    }
}

// A commit went, and the state counts it already. Here it is noted, with its stores, and its words are laid into memory. If
// memory runs out, they aren't laid.
fn note(
    past: &mut Past,
    stores: &mut Vec<Store>,
    commit: Commit,
    words: &mut Buffer,
) -> Result<(), OutOfMemory>
    requires room { IsTrue past.old.commits.room }
    requires number { position (progress_in past.old) + 1 ≡ past.old.state.commits }
    requires inside { AreInside (length past.old.state.memory) words.old.words }
    ensures first { past.new.first ≡ past.old.first }
    ensures commits { listed past.new.commits ≡ listed past.old.commits ++ commit ∷ [] }
    ensures state { let s = past.old.state in
        OnOk result (past.new.state ≡ record s { memory = lays s.memory words.old.words }) }
    ensures stores { let i = position (progress_in past.old) in
        let noted = stores_of i commit.actor past.old.state.memory words.old.words in
        OnOk result (stores.new.items ≡ stores.old.items ++ noted) }
    ensures still { OnErr result (past.new.state ≡ past.old.state) }
    ensures capacity { words.new.capacity ≡ words.old.capacity }
{
    let by = Storer {
        commit: past.state.commits - 1,
        actor: commit.actor,
    };
    past.commits.push_reserved(commit);
    note_stores(stores, by, words, &past.state.memory)?;
    drain(words, &mut past.state.memory);
    Ok(())
}
