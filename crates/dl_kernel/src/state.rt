//! Where a play is between two commits.
ghost use Rattle.std.specs.Prelude.{◌≡◌, ◌%◌, IfOk};
ghost use Rattle.spec_log.specs.declared.LogParts.{LogParts};
ghost use Rattle.spec_play.specs.States.{state_after};
ghost use Rattle.dl_kernel.specs.States.{state_in};

use dl_entry::{OutOfMemory, Request};
use dl_mem::{Memory, Snapshot};
use dl_thread::Threads;
use spec_play::Used;
use std::alloc::Global;

/// All that the next commits of a play depend on: the memory, the threads, the outstanding DMA request, the thread that
/// committed last, the number of whole commits that are done, and how many records of the log they used. The memory is a
/// `Memory` if the play goes on from the state, and a `Snapshot` if the state is kept.
#[derive(Drop)]
pub struct State<M = Memory> {
    pub memory: M,
    pub threads: Threads,
    pub request: Option<Request>,
    pub last: Option<u8>,
    pub commits: u32,
    pub used: Used,
}

impl State {
    /// Before the first commit: a memory, and thread 0 alone at an entry.
    pub fn first(memory: Memory, entry: u32) -> State
        requires { entry % 4 ≡ 0 }
        ensures { (log : LogParts) → state_in result ≡ state_after log memory entry 0 }
    {
        let used = Used {
            inputs: 0,
            interrupts: 0,
            dmas: 0,
        };
        State {
            memory,
            threads: Threads::start(entry),
            request: None,
            last: None,
            commits: 0,
            used,
        }
    }

    /// The state as it is now, to be kept while the play goes on. States that are kept one after another share the pages of
    /// memory to which nothing was put between them.
    pub fn keep(&mut self) -> Result<State<Snapshot>, OutOfMemory>
        ensures kept { IfOk result (λ kept. kept ≡ self.old) }
        ensures unchanged { self.new ≡ self.old }
    {
        let memory = self.memory.snapshot()?;
        Ok(self.over(memory))
    }

    /// The same state again, if this one can't be changed. The two share the pages of memory to which nothing was put since
    /// the last `keep`, so all of them if this state was made by `resumed`.
    pub fn again(&self, alloc: Global) -> Result<State, OutOfMemory>
        ensures { IfOk result (λ state. state ≡ self.now) }
    {
        let memory = self.memory.shared()?;
        Ok(self.over(Memory::from_snapshot(alloc, &memory)?))
    }
}

impl State<Snapshot> {
    /// The state that was kept, from which the play can go on. It shares the pages of memory until it puts to them.
    pub fn resumed(&self, alloc: Global) -> Result<State, OutOfMemory>
        ensures { IfOk result (λ state. state ≡ self.now) }
    {
        Ok(self.over(Memory::from_snapshot(alloc, &self.memory)?))
    }
}

impl<M> State<M> {
    // This state over another memory.
    fn over<N>(&self, memory: N) -> State<N>
        ensures memory { result.memory ≡ memory }
        ensures threads { result.threads ≡ self.now.threads }
        ensures request { result.request ≡ self.now.request }
        ensures last { result.last ≡ self.now.last }
        ensures commits { result.commits ≡ self.now.commits }
        ensures used { result.used ≡ self.now.used }
    {
        State {
            memory,
            threads: self.threads.again(),
            request: self.request,
            last: self.last,
            commits: self.commits,
            used: self.used,
        }
    }
}
