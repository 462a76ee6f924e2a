//! Commits in the order of an account.
ghost use Rattle.std.specs.Prelude.{◌≡◌, ℕ, suc, ◌<◌, ◌≤◌, [], ◌∷◌, ◌++◌, length, map, drop, insert, IsTrue, OnOk};
ghost use Rattle.dl_kernel.specs.InOrder.{AreSame, NoneWaits, end_of, has_room, joined, listed};

use crate::by_thread::{move_all, push_to, reserve_list};
use dl_entry::{Commit, OutOfMemory};
use std::alloc::Global;
use std::marker::Model;

/// Commits in the order of an account. Those of a stratum wait in a list for each thread until it is over, since one of a lesser
/// thread comes before those of greater threads, which needn't be moved for it. All that wait come after the others, by thread.
#[derive(Drop)]
pub struct InOrder {
    alloc: Global,
    whole: Vec<Commit>,
    by_thread: Vec<Vec<Commit>>,
    waiting: usize,
}

impl Model for InOrder {
    ghost use Rattle.std.specs.Prelude.{◌≡◌, ◌+◌, ◌≤◌, length, map, nat_lt, vec_len, vec_capacity};
    ghost use Rattle.dl_kernel.specs.InOrder.{Listed, joined, rooms_of};

    ghost Value = { Listed };

    ghost view = { λ s. record {
      whole = s.whole.items;
      by_thread = map (λ list. list.items) s.by_thread.items;
      room = nat_lt (vec_len s.whole + s.waiting) (vec_capacity s.whole);
      rooms = rooms_of s.by_thread.items;
    } };

    ghost invariant = { λ s.
        (s.waiting ≡ length (joined (map (λ list. list.items) s.by_thread.items)))
        × (vec_len s.whole + s.waiting ≤ vec_capacity s.whole) };
}

impl InOrder {
    /// No commit; this takes no memory yet.
    pub fn new(alloc: Global) -> InOrder
        ensures none { listed result ≡ [] }
        ensures settled { NoneWaits result }
    {
        InOrder {
            alloc,
            whole: Vec::new(alloc),
            by_thread: Vec::new(alloc),
            waiting: 0,
        }
    }

    /// Makes room for one more commit.
    pub fn reserve(&mut self) -> Result<(), OutOfMemory>
        ensures same { AreSame self.new self.old }
        ensures ok { OnOk result (IsTrue self.new.room) }
        ensures room { IsTrue self.old.room → IsTrue self.new.room }
    {
        self.whole.reserve(self.waiting + 1)?;
        Ok(())
    }

    /// Makes room for one more commit, in the list of its thread too.
    pub fn reserve_for(&mut self, thread: u8) -> Result<(), OutOfMemory>
        ensures same { AreSame self.new self.old }
        ensures ok { OnOk result (IsTrue self.new.room × IsTrue (has_room self.new.rooms thread)) }
        ensures room { IsTrue self.old.room → IsTrue self.new.room }
    {
        self.reserve()?;
        reserve_list(self.alloc, &mut self.by_thread, thread)
    }

    /// Puts a commit after all others.
    pub fn push_reserved(&mut self, commit: Commit)
        requires { IsTrue self.old.room }
        ensures all { listed self.new ≡ listed self.old ++ commit ∷ [] }
        ensures settled { NoneWaits self.new }
    {
        self.settle();
        self.whole.push_reserved(commit);
    }

    /// Puts a commit of a thread at the end of its list, where it waits.
    pub fn put_reserved(&mut self, thread: u8, commit: Commit)
        requires all { IsTrue self.old.room }
        requires list { IsTrue (has_room self.old.rooms thread) }
        ensures all { listed self.new ≡ insert (listed self.old) (end_of thread self.old) commit }
        ensures before { (k : ℕ) → k < thread → end_of k self.new ≡ end_of k self.old }
        ensures after { (k : ℕ) → thread ≤ k → end_of k self.new ≡ suc (end_of k self.old) }
    {
        push_to(&mut self.by_thread, thread, commit);
        self.waiting += 1;
    }

    /// Puts the last commit of a stratum at the end of its thread's list, and moves all that wait after the others.
    pub fn put_last(&mut self, thread: u8, commit: Commit)
        requires all { IsTrue self.old.room }
        requires list { IsTrue (has_room self.old.rooms thread) }
        ensures all { listed self.new ≡ insert (listed self.old) (end_of thread self.old) commit }
        ensures settled { NoneWaits self.new }
    {
        if self.waiting == 0 {
            self.whole.push_reserved(commit);
        } else {
            self.put_reserved(thread, commit);
            self.settle();
        }
    }

    /// Moves all that wait after the others. Their lists keep their memory.
    pub fn settle(&mut self)
        ensures whole { self.new.whole ≡ listed self.old }
        ensures all { listed self.new ≡ listed self.old }
        ensures settled { NoneWaits self.new }
        ensures room { IsTrue self.old.room → IsTrue self.new.room }
    {
        if self.waiting > 0 {
            move_all(&mut self.whole, &mut self.by_thread);
            self.waiting = 0;
        }
    }

    /// Drops the first commits.
    pub fn drop_first(&mut self, n: usize)
        requires { n ≤ length (listed self.old) }
        ensures { listed self.new ≡ drop n (listed self.old) }
    {
        self.settle();
        self.whole.drain(..n);
    }

    /// Drops all commits. What they took of memory is kept for the next ones.
    pub fn clear(&mut self)
        ensures { listed self.new ≡ [] }
    {
        self.drop_first(self.len());
    }

    pub fn len(&self) -> usize
        ensures { result ≡ length (listed self.now) }
    {
        self.whole.len() + self.waiting
    }

    /// The commits before those that wait.
    pub fn whole(&self) -> &[Commit]
        ensures { result.now ≡ self.now.whole }
    {
        &self.whole
    }

    /// The commits that wait, by thread.
    pub fn by_thread(&self) -> &[Vec<Commit>]
        ensures { map (λ list. list.items) result.now ≡ self.now.by_thread }
    {
        &self.by_thread
    }

    /// All commits in one list.
    pub fn into_list(mut self) -> Vec<Commit>
        ensures { result.items ≡ listed self }
    {
        self.settle();
        self.whole
    }
}
