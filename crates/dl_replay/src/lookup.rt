//! A log as a replay looks things up in it.
ghost use Rattle.std.specs.Prelude.{◌≡◌, ℕ, Bool, Option, ◌≤◌, ◌+◌, ◌<◌, ◌^◌, nat_lt, List, length, None, Some, IfOk, IfSome, OnSome, is_some, slice_get};
ghost use Rattle.std.specs.Prelude.{option_copied, option_map};
ghost use Rattle.dl_entry.specs.Numbers.{most_bytes, most_threads};
ghost use Rattle.spec_isa.specs.declared.thread.Parts.{Parts};
ghost use Rattle.spec_log.specs.Log.{IsLog};
ghost use Rattle.spec_log.specs.declared.mode_name.ModeName.TheVariants.{Picolog};
ghost use Rattle.spec_log.specs.Size.{size_in};
ghost use Rattle.spec_play.specs.Turns.{are_sizes_used};
ghost use Rattle.spec_play.specs.Verdicts.{interrupt_at};
ghost use Rattle.spec_sphere.specs.sphere.Spheres.{whole_limit};
ghost use Rattle.spec_strata.specs.Canonical.{canonical};
ghost use Rattle.spec_strata.specs.Standing.{stratum_begun};
ghost use Rattle.spec_strata.specs.Strata.{AreStrata};
ghost use Rattle.dl_mode.specs.Strata.{AreFewIf, after_commit, begins, comes_last, takes_at};
ghost use Rattle.dl_replay.specs.Counts.{commits_of};
ghost use Rattle.dl_replay.specs.Lists.{head_of};

use crate::copying::{dmas_of, inputs_of, interrupts_of, kept_of};
use crate::ready::ReadyStrata;
use crate::strata_mode::{StrataLog, StrataMode};
use dl_entry::{Actor, Input, OutOfMemory};
use dl_input::{Dmas, Inputs, Interrupts};
use dl_mode::{Mode, Noting};
use spec_log::{DmaRecord, Log, ModeName};
use std::alloc::Global;
use std::marker::Model;
use std::rc::Rc;

/// A log of a mode, seen as its parts; and how far its strata have come, if it has strata instead of an order.
#[derive(Drop)]
pub struct Lookup<M: Mode> {
    version: u8,
    threads: u8,
    s: u32,
    count: u32,
    log: M::Log,
    interrupts: Interrupts,
    inputs: Inputs,
    dmas: Dmas,
}

impl<M: Mode> Model for Lookup<M> {
    ghost use Rattle.std.specs.Prelude.{◌≡◌, map};
    ghost use Rattle.spec_log.specs.Log.{IsLog};
    ghost use Rattle.spec_log.specs.Noting.{log_of};
    ghost use Rattle.dl_input.specs.Tracked.{interrupt_of};
    ghost use Rattle.dl_replay.specs.Lists.{Looked};

    ghost Value = { Looked };

    ghost view = { λ l. record {
      log = log_of l.version l.threads M.mode (M.logged l.log).kept (map interrupt_of l.interrupts.entries) l.inputs.inputs l.dmas.dmas;
      strata = M.strata l.log;
    } };

    ghost invariant = { λ l.
        IsLog (log_of l.version l.threads M.mode (M.logged l.log).kept (map interrupt_of l.interrupts.entries) l.inputs.inputs l.dmas.dmas)
        × (l.s ≡ (M.logged l.log).kept.s) × (l.count ≡ (M.logged l.log).kept.count) };
}

impl<M: Noting> Lookup<M> {
    pub fn new(alloc: Global, log: &Log) -> Result<Lookup<M>, OutOfMemory>
        requires { log.now.mode ≡ M.mode }
        ensures value { IfOk result (λ lookup. lookup ≡ record { log = log.now; strata = None }) }
        ensures log { IsLog log.now }
    {
        let parts = log.parts();
        Ok(Lookup {
            version: parts.version,
            threads: parts.threads,
            s: parts.s,
            count: parts.count,
            log: kept_of::<M>(alloc, parts)?,
            interrupts: interrupts_of(alloc, parts.interrupts.as_slice())?,
            inputs: inputs_of(alloc, parts.inputs.as_slice())?,
            dmas: dmas_of(alloc, parts.dmas.as_slice())?,
        })
    }
}

impl Lookup<StrataMode> {
    /// Strata, of which nothing is done, with their log.
    pub fn of_strata(
        alloc: Global,
        strata: &Rc<ReadyStrata>,
    ) -> Result<Lookup<StrataMode>, OutOfMemory>
        ensures value { let v = strata.now.value in
            IfOk result (λ lookup. lookup ≡ record { log = canonical v; strata = Some (stratum_begun v.strata 0) }) }
        ensures good { AreStrata strata.now.value }
    {
        let parts = strata.parts();
        let log = StrataLog::new(alloc, strata)?;
        Ok(Lookup {
            version: 2,
            threads: parts.threads,
            s: parts.s,
            count: log.count(),
            log,
            interrupts: interrupts_of(alloc, parts.interrupts.as_slice())?,
            inputs: inputs_of(alloc, parts.inputs.as_slice())?,
            dmas: dmas_of(alloc, parts.dmas.as_slice())?,
        })
    }
}

impl<M: Mode> Lookup<M> {
    /// The number of its commits.
    pub fn count(&self) -> u32
        ensures value { result ≡ self.now.log.count }
        ensures log { IsLog self.now.log }
        ensures mode { self.now.log.mode ≡ M.mode }
    {
        self.count
    }

    /// How many threads it may have.
    pub fn threads(&self) -> u8
        ensures value { result ≡ self.now.log.threads }
        ensures few { result ≤ most_threads }
    {
        self.threads
    }

    /// The standard size of its chunks.
    pub fn standard(&self) -> u32
        ensures { result ≡ self.now.log.s }
    {
        self.s
    }

    /// The logged size of an actor's commit: of a thread by the number of its commits before, of a DMA by its position.
    pub fn size(&self, actor: Actor, index: u32) -> Option<u32>
        ensures { result ≡ size_in self.now.log actor index }
    {
        M::size(&self.log, actor, index)
    }

    /// How many instructions a whole chunk may run: the logged size, 1 in place of a logged 0, else a standard chunk's.
    pub fn limit(&self, thread: u8, index: u32) -> u32
        ensures { result ≡ whole_limit self.now.log thread index }
    {
        M::limit(&self.log, thread, index)
    }

    /// The actor of the commit at a position, by the thread that committed last and which threads are live; or in strata their
    /// head.
    pub fn head(&self, position: u32, last: Option<u8>, live: &[bool]) -> Option<Actor>
        requires { length live.now ≤ most_threads }
        ensures { result ≡ head_of self.now position last live.now }
    {
        let dma = self.dmas.at(position).is_some();
        M::head(&self.log, position, dma, last, live)
    }

    /// The same in a mode that has an order, or strata: it looks neither at threads nor at DMAs.
    pub fn head_in_order(&self, position: u32) -> Option<Actor>
        requires { M.mode ≡ Picolog → ⊥ }
        ensures { (last : Option ℕ) (live : List Bool) → result ≡ head_of self.now position last live }
    {
        M::head(&self.log, position, false, None, &[])
    }

    /// Whether an actor may commit, told who the head is.
    pub fn takes(&self, head: Option<Actor>, actor: Actor) -> bool
        ensures { result ≡ takes_at self.now.strata head actor }
    {
        M::takes(&self.log, head, actor)
    }

    /// Whether none of the present stratum's commits is done, if there are strata.
    pub fn begins(&self) -> Option<bool>
        ensures { result ≡ option_map begins self.now.strata }
    {
        M::begins(&self.log)
    }

    /// Whether none of the commits that are done comes after the next one of an actor in the order of the account.
    pub fn comes_last(&self, actor: Actor) -> bool
        ensures { result ≡ comes_last self.now.strata actor }
    {
        M::comes_last(&self.log, actor)
    }

    /// Strata go on after an actor's commit.
    pub fn advance(&mut self, actor: Actor)
        requires { AreFewIf self.old.strata }
        ensures { self.new ≡ record self.old { strata = option_map (after_commit actor) self.old.strata } }
    {
        M::advance(&mut self.log, actor)
    }

    /// Whether no size is left, once all commits are done and each thread has done so many. Where each commit has its size,
    /// each is used then.
    pub fn are_sizes_used(&self, commits: &[u32]) -> bool
        ensures { (threads : List Parts) → length threads ≤ most_threads → commits.now ≡ commits_of threads →
            result ≡ are_sizes_used threads self.now.log.sizes }
    {
        match M::name() {
            ModeName::OrderSize => true,
            ModeName::OrderOnly | ModeName::Picolog => M::used(&self.log, commits),
        }
    }

    /// The value of the interrupt that a thread takes after so many of its commits.
    pub fn interrupt(&self, thread: u8, commits: u32) -> Option<u32>
        ensures { result ≡ interrupt_at self.now.log.interrupts thread commits }
    {
        self.interrupts.at(thread, commits)
    }

    /// Whether there is an i-th interrupt.
    pub fn has_interrupt(&self, i: u32) -> bool
        ensures { result ≡ nat_lt i (length self.now.log.interrupts) }
    {
        self.interrupts.nth(i).is_some()
    }

    /// The i-th input.
    pub fn input(&self, i: u32) -> Option<&Input>
        ensures input { option_copied result ≡ slice_get self.now.log.inputs i }
        ensures there { is_some result ≡ nat_lt i (length self.now.log.inputs) }
        ensures next { OnSome result (i + 1 < 2 ^ 32) }
        ensures few { IfSome result (λ input. length input.now.bytes ≤ most_bytes) }
    {
        self.inputs.nth(i)
    }

    /// The i-th DMA.
    pub fn dma(&self, i: u32) -> Option<&DmaRecord>
        ensures dma { option_copied result ≡ slice_get self.now.log.dmas i }
        ensures there { is_some result ≡ nat_lt i (length self.now.log.dmas) }
        ensures next { OnSome result (i + 1 < 2 ^ 32) }
        ensures few { IfSome result (λ dma. length dma.now.bytes ≤ most_bytes) }
    {
        self.dmas.nth(i)
    }
}
