//! Strata as a mode: what they say of the next commit, in place of an order.
ghost use Rattle.std.specs.Prelude.{◌≡◌, Some, IfOk};
ghost use Rattle.spec_log.specs.declared.mode_name.ModeName.TheVariants.{OrderOnly as ByOrder};
ghost use Rattle.spec_strata.specs.Standing.{stratum_begun};
ghost use Rattle.dl_mode.specs.Strata.{has_left};
ghost use Rattle.dl_replay.specs.StrataLogs.{kept_begun};

use crate::ready::ReadyStrata;
use crate::standing::Standing;
use dl_entry::{Actor, OutOfMemory};
use dl_mode::{Mode, ThreadSizes, is_head, limit_of};
use spec_log::ModeName;
use std::alloc::Global;
use std::marker::Model;
use std::rc::Rc;

/// Strata, how far they have come, and the sizes of their short chunks.
#[derive(Drop)]
pub struct StrataLog {
    s: u32,
    count: u32,
    sizes: ThreadSizes,
    standing: Standing,
}

impl Model for StrataLog {
    ghost use Rattle.dl_replay.specs.StrataLogs.{StrataLogged, strata_logged};

    ghost Value = { StrataLogged };

    ghost view = { λ l. strata_logged l.s l.count l.standing l.sizes };
}

impl StrataLog {
    /// Strata of which nothing is done.
    pub fn new(alloc: Global, strata: &Rc<ReadyStrata>) -> Result<StrataLog, OutOfMemory>
        ensures kept { IfOk result (λ log. log.logged.kept ≡ kept_begun strata.now.value) }
        ensures strata { IfOk result (λ log. log.strata ≡ stratum_begun strata.now.value.strata 0) }
    {
        let parts = strata.parts();
        Ok(StrataLog {
            s: parts.s,
            count: strata.commits(),
            sizes: ThreadSizes::from_list(alloc, parts.sizes.as_slice(), parts.s)?,
            standing: Standing::new(alloc, strata)?,
        })
    }

    /// How many commits all of them have.
    pub fn count(&self) -> u32
        ensures { result ≡ self.now.logged.kept.count }
    {
        self.count
    }
}

/// The mode of strata. Their log is one in order-only.
pub struct StrataMode;

impl Mode for StrataMode {
    type Log = StrataLog;

    ghost mode = { ByOrder };

    ghost logged = { λ log. log.logged };

    ghost strata = { λ log. Some log.strata };

    fn name() -> ModeName {
        ModeName::OrderOnly
    }

    fn size(log: &StrataLog, actor: Actor, index: u32) -> Option<u32> {
        match actor {
            Actor::Thread(thread) => log.sizes.size(thread, index),
            Actor::Dma => None,
        }
    }

    fn limit(log: &StrataLog, thread: u8, index: u32) -> u32 {
        limit_of(log.s, log.sizes.size(thread, index))
    }

    fn used(log: &StrataLog, done: &[u32]) -> bool {
        log.sizes.used(done)
    }

    fn head(log: &StrataLog, _: u32, _: bool, _: Option<u8>, _: &[bool]) -> Option<Actor> {
        log.standing.head()
    }

    fn takes(log: &StrataLog, head: Option<Actor>, actor: Actor) -> bool {
        has_left(&log.standing, actor) || is_head(head, actor)
    }

    fn begins(log: &StrataLog) -> Option<bool> {
        Some(log.standing.begins())
    }

    fn comes_last(log: &StrataLog, actor: Actor) -> bool {
        match actor {
            Actor::Thread(thread) => log.standing.is_last(thread),
            Actor::Dma => true,
        }
    }

    fn advance(log: &mut StrataLog, actor: Actor) {
        match actor {
            Actor::Thread(thread) => log.standing.after_thread(thread),
            Actor::Dma => log.standing.after_dma(),
        }
    }
}

// Whether an actor has chunks left in the present stratum. A DMA has none.
fn has_left(standing: &Standing, actor: Actor) -> bool
    ensures { result ≡ has_left (Some standing.now.standing) actor }
{
    match actor {
        Actor::Thread(thread) => standing.has_chunks_left(thread),
        Actor::Dma => false,
    }
}
