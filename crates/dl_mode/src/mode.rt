//! What each mode does: three modes of recording, and strata.
ghost use Rattle.std.specs.Prelude.{◌≡◌, ◌^◌, ◌<◌, None, Option, take, option_map, IfOk, IsOk, IsTrue, OnOk, OnErr};
ghost use Rattle.dl_entry.specs.Numbers.{most_threads};
ghost use Rattle.spec_log.specs.declared.mode_name.ModeName.{ModeName};
ghost use Rattle.spec_log.specs.Log.{IsActor};
ghost use Rattle.spec_log.specs.Noting.{nothing_kept, noted, kept_size, limit_by, sizes_used, kept_head};
ghost use Rattle.dl_mode.specs.Counts.{counted, done_by};
ghost use Rattle.dl_mode.specs.Lists.{lists_of, AreLists};
ghost use Rattle.dl_mode.specs.Since.{kept_since};
ghost use Rattle.dl_mode.specs.Logged.{Logged, note_of};
ghost use Rattle.dl_mode.specs.Strata.{AreFewIf, after_commit, begins, comes_last, head_at, is_head, takes_at};
ghost use Rattle.spec_strata.specs.Standing.{Standing};

use crate::lists::Lists;
use dl_entry::{Actor, Commit, OutOfMemory};
use spec_log::ModeName;
use std::alloc::Global;

/// A mode: what a log of it says of the next commit and of its size. One mode has strata instead of an order, and they know how
/// far they have come.
pub trait Mode {
    type Log: Drop;

    ghost mode: { ModeName };

    ghost logged: { Self.Log → Logged };

    ghost strata: { Self.Log → Option Standing };

    /// The mode's name.
    fn name() -> ModeName
        ensures { result ≡ mode };

    /// The logged size of an actor's commit: of a thread by the number of its commits before, of a DMA by its position.
    fn size(log: &Self::Log, actor: Actor, index: u32) -> Option<u32>
        ensures { result ≡ kept_size (logged log.now).kept actor index };

    /// How many instructions a chunk may run: the logged size, 1 in place of a logged 0, else a standard chunk's.
    fn limit(log: &Self::Log, thread: u8, index: u32) -> u32
        ensures { let kept = (logged log.now).kept in
            result ≡ limit_by kept.s (kept_size kept (Actor.Thread thread) index) };

    /// Whether every size is of a commit that its thread has done, by the number of each thread's commits.
    fn used(log: &Self::Log, done: &[u32]) -> bool
        ensures { let kept = (logged log.now).kept in result ≡ sizes_used kept.order kept.sizes done.now };

    /// Whose commit comes at a position, told whether a DMA commits there, which thread committed last, and which are live.
    /// Of these no more are looked at than a log can name. In strata it is the least thread with chunks left in the present
    /// stratum, or the actor that is there.
    fn head(
        log: &Self::Log,
        position: u32,
        dma: bool,
        last: Option<u8>,
        live: &[bool],
    ) -> Option<Actor>
        ensures { result ≡ head_at (strata log.now)
            (kept_head mode (logged log.now).kept.order position dma last (take most_threads live.now)) };

    /// Whether an actor may commit, told who the head is: in a log the head alone; in strata also a thread that has chunks left
    /// in the present stratum.
    fn takes(log: &Self::Log, head: Option<Actor>, actor: Actor) -> bool
        ensures { result ≡ takes_at (strata log.now) head actor };

    /// Whether none of the present stratum's commits is done; nothing in a log, which has no strata.
    fn begins(log: &Self::Log) -> Option<bool>
        ensures { result ≡ option_map begins (strata log.now) };

    /// Whether none of the commits that are done comes after the next one of an actor in the order of the account; in a log none
    /// does.
    fn comes_last(log: &Self::Log, actor: Actor) -> bool
        ensures { result ≡ comes_last (strata log.now) actor };

    /// Strata go on after an actor's commit.
    fn advance(log: &mut Self::Log, actor: Actor)
        requires { AreFewIf (strata log.old) }
        ensures kept { (logged log.new).kept ≡ (logged log.old).kept }
        ensures strata { strata log.new ≡ option_map (after_commit actor) (strata log.old) };
}

/// A mode in which commits are noted, so that its log grows: it keeps what a replay needs of their order and sizes.
pub trait Noting: Mode {
    /// The log of no commit, with standard chunks of `s` instructions.
    fn new(alloc: Global, s: u32) -> Result<Self::Log, OutOfMemory>
        ensures { IfOk result (λ log. (Self.logged log).kept ≡ nothing_kept Self.mode s) };

    /// Makes room for one commit more.
    fn reserve(log: &mut Self::Log) -> Result<(), OutOfMemory>
        ensures kept { (Self.logged log.new).kept ≡ (Self.logged log.old).kept }
        ensures ok { OnOk result (IsTrue (Self.logged log.new).room) }
        ensures room { IsTrue (Self.logged log.old).room → IsOk result };

    /// Notes a commit, and whether its chunk is short. With room it isn't refused.
    fn note(log: &mut Self::Log, commit: &Commit, closed_short: bool) -> Result<(), OutOfMemory>
        requires actor { IsActor most_threads commit.now.actor }
        requires commits { (Self.logged log.old).kept.count < 2 ^ 24 }
        requires done { done_by (Self.logged log.old).kept.done commit.now.actor < 2 ^ 24 }
        ensures ok { OnOk result ((Self.logged log.new).kept ≡ noted Self.mode (Self.logged log.old).kept (note_of commit.now closed_short)) }
        ensures err { OnErr result ((Self.logged log.new).kept ≡ (Self.logged log.old).kept) }
        ensures room { IsTrue (Self.logged log.old).room → IsOk result };

    /// Gives up the first `n` commits, after which each thread had done so many commits, by its number. The threads' commits
    /// are still counted from the first.
    fn forget(log: &mut Self::Log, n: u32, done: &[u32])
        ensures kept { (Self.logged log.new).kept ≡ kept_since n done.now (Self.logged log.old).kept }
        ensures room { IsTrue (Self.logged log.old).room → IsTrue (Self.logged log.new).room };

    /// The lists of a log.
    fn lists(alloc: Global, log: &Self::Log) -> Result<Lists, OutOfMemory>
        ensures { IfOk result (λ lists. lists ≡ lists_of Self.mode (Self.logged log.now).kept) };

    /// The log of these lists, in which the commits of their order are counted: in picolog, which has no order, none.
    fn from_lists(alloc: Global, lists: &Lists) -> Result<Self::Log, OutOfMemory>
        requires { AreLists Self.mode lists.now }
        ensures lists { IfOk result (λ log. lists_of Self.mode (Self.logged log).kept ≡ lists.now) }
        ensures done { IfOk result (λ log. (Self.logged log).kept.done ≡ counted lists.now.order) }
        ensures strata { IfOk result (λ log. Self.strata log ≡ None) };
}

/// Whether an actor is the head.
pub fn is_head(head: Option<Actor>, actor: Actor) -> bool
    ensures { result ≡ is_head head actor }
{
    match (head, actor) {
        (Some(Actor::Thread(head)), Actor::Thread(thread)) => head == thread,
        (Some(Actor::Dma), Actor::Dma) => true,
        (Some(_) | None, _) => false,
    }
}

/// The limit of a chunk with this logged size.
pub fn limit_of(s: u32, size: Option<u32>) -> u32
    ensures { result ≡ limit_by s size }
{
    match size {
        Some(size) => size.max(1),
        None => s,
    }
}
