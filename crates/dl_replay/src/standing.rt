//! How far a replay has come in strata.
ghost use Rattle.std.specs.Prelude.{◌≡◌, ◌+◌, ◌<◌, ◌^◌, IfOk, IsSome, Some, drop, length, replicate, slice_get};
ghost use Rattle.std.specs.List.{sum};
ghost use Rattle.spec_strata.specs.Standing.{after_dma, after_thread, has_chunks_left, head_standing, is_last, stratum_begun, with_one_done};
ghost use Rattle.dl_mode.specs.Strata.{begins};
ghost use Rattle.dl_replay.specs.Standings.{Stood, count_in, nothing_stood};
ghost use Rattle.dl_replay.specs.Starts.{start_if};

use crate::done::pass_on;
use crate::ready::{ReadyStrata, Start};
use dl_entry::{Actor, OutOfMemory};
use dl_mode::is_head;
use std::alloc::Global;
use std::marker::Model;
use std::rc::Rc;

/// Strata and how far they have come: the place of the present one, how many of its chunks are done by thread and in all, the
/// greatest thread that has done some, how many it has in all, if it has chunks, and whose commit is next in canonical order;
/// and how many commits come before it. Its memory is taken at the start.
#[derive(Drop)]
pub struct Standing {
    strata: Rc<ReadyStrata>,
    place: usize,
    done: Vec<u32>,
    all_done: u32,
    greatest: u8,
    present: Start,
    before: u32,
}

impl Model for Standing {
    ghost use Rattle.std.specs.Prelude.{◌≡◌, ◌+◌, ◌<◌, ◌≤◌, ◌^◌, All, length};
    ghost use Rattle.std.specs.List.{sum};
    ghost use Rattle.spec_strata.specs.Standing.{head_standing};
    ghost use Rattle.dl_replay.specs.Standings.{CountsThreads, IsGreatest, Stood, count_in, standing_from, stood};

    ghost Value = { Stood };

    ghost view = { λ s. stood s.strata.value.strata s.place s.done.items s.before };

    ghost invariant = { λ s. let strata = s.strata.value.strata in let x = standing_from strata s.place s.done.items s.before in
        All (CountsThreads (length s.done.items)) strata
        × (s.place ≤ length strata)
        × (length strata < 2 ^ 64)
        × (length s.done.items ≤ 63)
        × (s.all_done ≡ sum x.done)
        × (s.all_done ≡ sum s.done.items)
        × (s.present.count ≡ count_in x.strata)
        × (s.present.head ≡ head_standing x)
        × IsGreatest s.greatest x.done
        × (x.before + sum x.done < 2 ^ 32)
        × (length s.done.items ≡ s.strata.value.counted) };
}

impl Standing {
    /// The start of strata, of which it becomes one more owner.
    pub fn new(alloc: Global, strata: &Rc<ReadyStrata>) -> Result<Standing, OutOfMemory>
        ensures { IfOk result (λ standing. standing ≡ nothing_stood strata.now.value.strata) }
    {
        let strata = strata.clone()?;
        // the proof sees here that places can be counted
        let _ = strata.len();
        let threads = usize::from(strata.parts().counted);
        let done = vec![in alloc; 0; threads]?;
        let present = start_at(&strata, 0);
        Ok(Standing {
            strata,
            place: 0,
            done,
            all_done: 0,
            greatest: 0,
            present,
            before: 0,
        })
    }

    /// Whose commit is next in canonical order.
    pub fn head(&self) -> Option<Actor>
        ensures { result ≡ head_standing self.now.standing }
    {
        self.present.head
    }

    /// Whether a thread has chunks left in the present stratum.
    pub fn has_chunks_left(&self, thread: u8) -> bool
        ensures { let x = self.now.standing in result ≡ has_chunks_left x.strata x.done thread }
    {
        self.present.count.is_some()
            && (is_head(self.present.head, Actor::Thread(thread)) || self.has_more(thread))
    }

    // The same in a stratum that has chunks, whoever is next in canonical order.
    fn has_more(&self, thread: u8) -> bool
        requires { IsSome (count_in self.now.standing.strata) }
        ensures { let x = self.now.standing in result ≡ has_chunks_left x.strata x.done thread }
    {
        let thread = usize::from(thread);
        let counts = self.strata.counts(self.place);
        thread < counts.len() && self.done[thread] < u32::from(counts[thread])
    }

    /// Whether none of the present stratum's commits is done.
    pub fn begins(&self) -> bool
        ensures { result ≡ begins self.now.standing }
    {
        self.all_done == 0
    }

    /// Whether none of the present stratum's commits that are done comes after a thread's next one.
    pub fn is_last(&self, thread: u8) -> bool
        ensures { result ≡ is_last thread self.now.standing }
    {
        thread >= self.greatest
    }

    /// A commit of a thread is done.
    pub fn after_thread(&mut self, thread: u8)
        requires { let x = self.old.standing in x.before + sum x.done + 1 < 2 ^ 32 }
        ensures { self.new ≡ record self.old { standing = after_thread thread self.old.standing } }
    {
        match self.present.count {
            Some(count) => self.after_chunk(thread, count),
            None => self.after_dma(),
        }
    }

    /// A DMA is done.
    pub fn after_dma(&mut self)
        requires { let x = self.old.standing in x.before + sum x.done + 1 < 2 ^ 32 }
        ensures { self.new ≡ record self.old { standing = after_dma self.old.standing } }
    {
        if self.place < self.strata.len() {
            self.go_on(1);
        }
    }

    // A chunk of a thread is done in the present stratum, which has so many. The next one begins if none is left.
    fn after_chunk(&mut self, thread: u8, count: u32)
        requires chunks { count_in self.old.standing.strata ≡ Some count }
        requires few { let x = self.old.standing in x.before + sum x.done + 1 < 2 ^ 32 }
        ensures { self.new ≡ record self.old { standing = after_thread thread self.old.standing } }
    {
        let counted = usize::from(thread) < self.done.len();
        let all_done = if counted {
            self.all_done + 1
        } else {
            self.all_done
        };
        if all_done >= count {
            self.go_on(count);
        } else if counted {
            self.add_one(thread);
        }
    }

    // One chunk more of a thread is done in the present stratum, which has chunks.
    fn add_one(&mut self, thread: u8)
        requires chunks { IsSome (count_in self.old.standing.strata) }
        requires thread { thread < length self.old.standing.done }
        requires few { let x = self.old.standing in x.before + sum x.done + 1 < 2 ^ 32 }
        ensures { let x = self.old.standing in self.new ≡ record self.old { standing = record x { done = with_one_done thread x.done } } }
    {
        let number = usize::from(thread);
        self.done[number] += 1;
        self.all_done += 1;
        self.greatest = self.greatest.max(thread);
        let counts = self.strata.counts(self.place);
        pass_on(&mut self.present.head, thread, counts, &self.done);
    }

    // The next stratum begins, after so many commits of the present one. This stands apart, so that what all commits do is short.
    #[inline(never)]
    fn go_on(&mut self, commits: u32)
        requires left { 0 < length self.old.standing.strata }
        requires few { self.old.standing.before + commits < 2 ^ 32 }
        ensures { let x = self.old.standing in
            self.new ≡ record self.old { standing = stratum_begun (drop 1 x.strata) (x.before + commits) } }
    {
        let all_done = self.all_done;
        self.before += commits;
        self.place += 1;
        self.all_done = 0;
        self.greatest = 0;
        self.present = start_at(&self.strata, self.place);
        reset(&mut self.done, all_done);
    }
}

// Sets each number to 0. Their sum, which is given, tells whether they are.
fn reset(numbers: &mut Vec<u32>, all: u32)
    requires { all ≡ sum numbers.old.items }
    ensures { numbers.new.items ≡ replicate (length numbers.old.items) 0 }
{
    if all > 0 {
        clear(numbers);
    }
}

// Sets each number to 0. This stands apart too, since a stratum of one commit has nothing to clear.
#[inline(never)]
fn clear(numbers: &mut Vec<u32>)
    ensures { numbers.new.items ≡ replicate (length numbers.old.items) 0 }
{
    numbers.fill(0);
}

// How the stratum at a place begins.
fn start_at(strata: &ReadyStrata, place: usize) -> Start
    ensures { result ≡ start_if (slice_get strata.now.strata place) }
{
    if place < strata.len() {
        strata.start(place)
    } else {
        Start {
            count: None,
            head: None,
        }
    }
}
