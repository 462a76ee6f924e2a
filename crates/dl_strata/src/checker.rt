//! The check for conflicts, stratum by stratum.
ghost use Rattle.std.specs.Prelude.{◌≡◌, ◌+◌, ◌*◌, ◌^◌, ◌<◌, ◌≤◌, ◌∷◌, [], length, replicate, IfOk, OnOk};
ghost use Rattle.spec_log.specs.declared.ModeName.{ModeName};
ghost use Rattle.spec_play.specs.Plays.{opened};
ghost use Rattle.spec_strata.specs.Canonical.{rising};
ghost use Rattle.dl_strata.specs.Conflicts.{CanCheck, CanCheckChunks, Checks, ChecksChunks};
ghost use Rattle.dl_strata.specs.Runs.{HasFewCounts};

use crate::checking::CheckError;
use crate::touches::Touches;
use dl_elf::Image;
use dl_entry::OutOfMemory;
use dl_mode::OrderOnly;
use dl_serial::{Footprint, Player};
use spec_log::Log;
use spec_strata::Stratum;
use std::alloc::Global;

/// The play of the log of some strata, who has touched each word in the present stratum, and the last chunk's footprint.
#[derive(Drop)]
pub struct Checker {
    pub player: Player<OrderOnly>,
    pub touches: Touches,
    pub footprint: Footprint,
}

impl Checker {
    /// Before the first commit of a log.
    pub fn new(alloc: Global, image: &Image, log: &Log) -> Result<Checker, OutOfMemory>
        requires { log.now.mode ≡ ModeName.OrderOnly }
        ensures player { let y = opened log.now image.now.bytes image.now.entry in
            IfOk result (λ c. c.player ≡ record { log = log.now; played = y; stores = [] }) }
        ensures words { IfOk result (λ c. 4 * length c.touches.touches ≡ length image.now.bytes) }
        ensures stratum { IfOk result (λ c. c.touches.stratum ≡ 0) }
    {
        Ok(Checker {
            player: Player::first(alloc, image, log)?,
            touches: Touches::new(alloc, image.bytes().len() / 4)?,
            footprint: Footprint::new(alloc),
        })
    }

    /// Checks the next stratum, up to the first commit that conflicts.
    pub fn check(&mut self, stratum: &Stratum) -> Result<(), CheckError>
        requires few { HasFewCounts stratum.now }
        requires strata { self.old.touches.stratum + 1 < 2 ^ 32 }
        requires next { CanCheck self.old stratum.now }
        ensures strata { OnOk result (self.new.touches.stratum ≤ self.old.touches.stratum + 1) }
        ensures checked { Checks stratum.now self.old result self.new }
    {
        match stratum {
            Stratum::Chunks(counts) => {
                self.touches.begin();
                self.check_chunks(counts.as_slice())
            }
            Stratum::Serial(_) | Stratum::Dma => {
                self.player.look_on(&mut self.footprint)?;
                Ok(())
            }
        }
    }

    // Checks the chunks of a stratum that has begun, thread by thread.
    fn check_chunks(&mut self, counts: &[u8]) -> Result<(), CheckError>
        requires few { length counts.now ≤ 255 }
        requires next { CanCheckChunks self.old (rising 0 counts.now) }
        ensures strata { OnOk result (self.new.touches.stratum ≡ self.old.touches.stratum) }
        ensures checked { ChecksChunks (rising 0 counts.now) self.old result self.new }
    {
        let mut thread = 0;
        for count in counts {
            self.check_thread(thread, *count)?;
            thread += 1;
        }
        Ok(())
    }

    // Checks the next chunks of a thread.
    fn check_thread(&mut self, thread: u8, count: u8) -> Result<(), CheckError>
        requires { CanCheckChunks self.old (replicate count thread) }
        ensures strata { OnOk result (self.new.touches.stratum ≡ self.old.touches.stratum) }
        ensures checked { ChecksChunks (replicate count thread) self.old result self.new }
    {
        for _ in 0..count {
            self.check_chunk(thread)?;
        }
        Ok(())
    }

    // Checks the next chunk, which is a thread's.
    fn check_chunk(&mut self, thread: u8) -> Result<(), CheckError>
        requires { CanCheckChunks self.old (thread ∷ []) }
        ensures strata { OnOk result (self.new.touches.stratum ≡ self.old.touches.stratum) }
        ensures checked { ChecksChunks (thread ∷ []) self.old result self.new }
    {
        let index = self.player.commits();
        self.player.look_on(&mut self.footprint)?;
        if !self.touches.is_free(thread, &self.footprint) {
            return Err(CheckError::Conflict(index));
        }
        self.touches.note(thread, &self.footprint);
        Ok(())
    }
}
