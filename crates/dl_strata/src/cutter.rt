//! Strata as they are cut, commit by commit.
ghost use Rattle.std.specs.Prelude.{◌≡◌, ◌+◌, ◌++◌, ◌∷◌, ◌↔◌, ◌<◌, ◌≤◌, [], length, map, replicate, slice_index, IsTrue, IfOk, OnOk};
ghost use Rattle.spec_log.specs.declared.LogParts.{LogParts};
ghost use Rattle.spec_play.specs.Plays.{Played, play_turn};
ghost use Rattle.spec_play.specs.Turns.{Turn};
ghost use Rattle.spec_strata.specs.declared.touch.Touch.{Touch};
ghost use Rattle.spec_strata.specs.declared.stratum.Stratum.{Stratum};
ghost use Rattle.spec_strata.specs.Making.{Cuts, chunk_cut};
ghost use Rattle.dl_strata.specs.Tables.{IsFreeIn, IsWithin, Table};
ghost use Rattle.dl_strata.specs.Cutting.{CanCount, HasCut, IsCounted, IsNextChunk, closed_strata};

use crate::counts::Counts;
use crate::touches::Touches;
use dl_entry::{Actor, CommitKind, OutOfMemory, Sequence};
use dl_serial::Footprint;
use spec_strata::Stratum;
use std::alloc::Global;
use std::marker::Model;

// The most chunks of one thread in a stratum.
const MOST_CHUNKS: u8 = 255;

/// The strata that are done, and how many chunks the present one has of each thread, if there is one.
#[derive(Drop)]
pub struct Cutter {
    alloc: Global,
    counted: u8,
    strata: Sequence<Stratum>,
    present: Option<Counts>,
    touches: Touches,
}

impl Model for Cutter {
    ghost use Rattle.dl_strata.specs.Cutting.{Cutting, HasCounts};

    ghost Value = { Cutting };

    ghost view = { λ c. record {
      counted = c.counted;
      strata = c.strata;
      present = c.present;
      table = c.touches;
    } };

    ghost invariant = { λ c. HasCounts c.counted c.present };
}

impl Cutter {
    /// Before the first commit of a play with so many threads at its end, on a memory of so many words.
    pub fn new(alloc: Global, counted: u8, words: usize) -> Result<Cutter, OutOfMemory>
        ensures { IfOk result (λ c. c ≡ record {
          counted = counted;
          strata = [];
          present = None;
          table = record { stratum = 0; touches = replicate words Touch.Untouched };
        }) }
    {
        Ok(Cutter {
            alloc,
            counted,
            strata: Sequence::new(alloc),
            present: None,
            touches: Touches::new(alloc, words)?,
        })
    }

    /// Adds a commit by itself.
    pub fn add_alone(&mut self, stratum: Stratum) -> Result<(), OutOfMemory>
        ensures { let c = self.old in OnOk result (self.new
            ≡ record c { strata = closed_strata c.strata c.present ++ stratum ∷ []; present = None }) }
    {
        self.close()?;
        self.strata.push(stratum)?;
        Ok(())
    }

    /// Adds a chunk: to the present ones, or to new ones if it can't join them.
    pub fn add_chunk(&mut self, thread: u8, footprint: &Footprint) -> Result<(), OutOfMemory>
        requires { CanCount self.old thread footprint.now }
        ensures counted { OnOk result (self.new.counted ≡ self.old.counted) }
        ensures stratum { OnOk result (self.new.table.stratum ≤ self.old.table.stratum + 1) }
        ensures words { OnOk result (length self.new.table.touches ≡ length self.old.table.touches) }
        ensures cut { (log : LogParts) (y : Played) (x : Cuts)
            → IsNextChunk log y thread footprint.now → HasCut self.old y x
            → OnOk result (HasCut self.new (play_turn log y (Turn thread)) (chunk_cut self.old.counted log y thread x)) }
    {
        let Some(counts) = self.present.take() else {
            return self.begin(thread, footprint);
        };
        if self.joins(&counts, thread, footprint) {
            self.count(counts, thread, footprint);
            return Ok(());
        }
        self.push(counts)?;
        self.begin(thread, footprint)
    }

    /// The strata, the present one too.
    pub fn finish(mut self) -> Result<Sequence<Stratum>, OutOfMemory>
        ensures { IfOk result (λ strata. strata ≡ closed_strata self.strata self.present) }
    {
        self.close()?;
        Ok(self.strata)
    }

    // Whether a chunk can join those that are counted.
    fn joins(&self, counts: &Counts, thread: u8, footprint: &Footprint) -> bool
        requires { thread < length counts.now }
        ensures joins { IsTrue result
            ↔ (slice_index counts.now thread < 255) × IsFreeIn self.now.table.touches thread footprint.now }
        ensures most { slice_index counts.now thread ≤ 255 }
    {
        counts.of(thread) < MOST_CHUNKS && self.touches.is_free(thread, footprint)
    }

    // Begins a stratum with a chunk.
    fn begin(&mut self, thread: u8, footprint: &Footprint) -> Result<(), OutOfMemory>
        requires { CanCount self.old thread footprint.now }
        ensures { let c = self.old in
            let t : Table = record { stratum = c.table.stratum + 1; touches = map (λ _. Touch.Untouched) c.table.touches } in
            OnOk result (IsCounted (record c { table = t }) (replicate c.counted 0) thread footprint.now self.new) }
    {
        let counts = Counts::none(self.alloc, self.counted)?;
        self.touches.begin();
        self.count(counts, thread, footprint);
        Ok(())
    }

    // Counts a chunk among others of a stratum, and notes its footprint.
    fn count(&mut self, mut counts: Counts, thread: u8, footprint: &Footprint)
        requires thread { thread < self.old.counted }
        requires words { IsWithin (length self.old.table.touches) footprint.now }
        requires counts { length counts ≡ self.old.counted }
        requires few { slice_index counts thread < 255 }
        ensures { IsCounted self.old counts thread footprint.now self.new }
    {
        counts.add(thread);
        self.touches.note(thread, footprint);
        self.present = Some(counts);
    }

    // Nothing joins the present chunks any more.
    fn close(&mut self) -> Result<(), OutOfMemory>
        ensures { let c = self.old in
            OnOk result (self.new ≡ record c { strata = closed_strata c.strata c.present; present = None }) }
    {
        match self.present.take() {
            Some(counts) => self.push(counts),
            None => Ok(()),
        }
    }

    // Adds a stratum of chunks.
    fn push(&mut self, counts: Counts) -> Result<(), OutOfMemory>
        ensures { let c = self.old in
            OnOk result (self.new ≡ record c { strata = c.strata ++ Stratum.Chunks counts ∷ [] }) }
    {
        self.strata.push(Stratum::Chunks(counts.into_bytes()))
    }
}
