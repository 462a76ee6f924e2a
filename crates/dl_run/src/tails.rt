//! The tail of a sphere that is recorded in epochs.
ghost use Rattle.std.specs.Prelude.{◌≡◌, ◌^◌, ◌<◌, List, All, Some, IfOk, length};
ghost use Rattle.spec_protocol.specs.declared.event.Event.{Event};
ghost use Rattle.spec_sphere.specs.sphere.Setups.{EpochSetup, RecordSetup, IsRecorded};
ghost use Rattle.spec_protocol.specs.promises.Sound.{image_at};
ghost use Rattle.spec_log.specs.Log.{IsLog};
ghost use Rattle.spec_run.specs.Promise.{HasWords, IsCode};
ghost use Rattle.spec_run.specs.Tails.{tail_of_points};
ghost use Rattle.spec_tail.specs.Tails.{IsTail};
ghost use Rattle.dl_mem.specs.Memories.{IsMemory};
ghost use Rattle.dl_kernel.specs.States.{state_in};
ghost use Rattle.dl_run.specs.Ran.{IsOver};
ghost use Rattle.dl_run.specs.Tails.{AreWords, tail_in};

use crate::run::Run;
use dl_entry::{Bytes, OutOfMemory, Sequence};
use dl_kernel::{State, thread_at};
use dl_sphere::{Base, Memory, Snapshot, Threads};
use dl_tail::{Tail, TailParts};
use spec_isa::thread::{Parts, ThreadStatus};
use spec_log::Log;
use std::alloc::Global;

impl Run {
    /// The tail of a sphere that is recorded in epochs: the state where its earliest epoch begins, and the log from there on.
    pub fn tail(&self, alloc: Global, sphere: usize) -> Result<Tail, OutOfMemory>
        requires inside { sphere < length self.now.setup.spheres }
        requires recorded { (asked : RecordSetup) × (x : EpochSetup)
            × ((image_at self.now.setup sphere).role ≡ IsRecorded asked) × (asked.epochs ≡ Some x) }
        ensures { IfOk result (λ tail. (es : List Event) (asked : RecordSetup) (x : EpochSetup) → IsOver es self.now
            → (image_at self.now.setup sphere).role ≡ IsRecorded asked → asked.epochs ≡ Some x
            → tail ≡ tail_of_points self.now.setup es sphere asked x) }
    {
        let sphere = self.sphere(sphere);
        let Base { at, state } = sphere.base();
        tail_from(alloc, at, state, sphere.log()?)
    }
}

// The tail of where a recording begins, and of its log from there on.
fn tail_from(
    alloc: Global,
    base: u32,
    state: &State<Snapshot>,
    log: Log,
) -> Result<Tail, OutOfMemory>
    requires { let t = tail_in base (state_in state.now) log in HasWords t → IsLog log → IsTail t }
    ensures { IfOk result (λ tail. tail ≡ tail_in base (state_in state.now) log) }
{
    let _ = log.parts();
    Ok(Tail::new(TailParts {
        base,
        threads: parts_of(alloc, &state.threads)?,
        memory: bytes_of(alloc, &state.memory)?,
        request: state.request,
        last: state.last,
        log,
    }))
}

// The parts of each thread.
fn parts_of(alloc: Global, threads: &Threads) -> Result<Sequence<Parts>, OutOfMemory>
    ensures parts { IfOk result (λ parts. parts ≡ threads.now) }
    ensures words { IfOk result (All AreWords) }
{
    let mut parts = Sequence::new(alloc);
    for number in 0..threads.len() {
        let thread = thread_at(threads, number).parts();
        see_words(&thread);
        parts.push(thread)?;
    }
    Ok(parts)
}

// The numbers of a thread have 32 bits, as those of a tail must.
fn see_words(thread: &Parts)
    ensures { AreWords thread.now }
{
    see_registers(&thread.x);
    see_word(thread.pc);
    see_word(thread.handler);
    see_word(thread.saved_pc);
    see_word(thread.saved_a0);
    see_word(thread.saved_a1);
    see_code(thread.status);
}

fn see_word(word: u32)
    ensures { word < 2 ^ 32 }
{}

fn see_code(status: ThreadStatus)
    ensures { IsCode status }
{
    match status {
        ThreadStatus::Live => {}
        ThreadStatus::Ended(code) => see_word(code),
        ThreadStatus::Fault(_) => {}
    }
}

fn see_registers(registers: &[u32])
    ensures { All (λ word. word < 2 ^ 32) registers.now }
{
    for register in registers {
        let _ = *register;
    }
}

// The bytes of a memory that is kept.
fn bytes_of(alloc: Global, kept: &Snapshot) -> Result<Bytes, OutOfMemory>
    ensures bytes { IfOk result (λ bytes. bytes ≡ kept.now) }
    ensures memory { IfOk result IsMemory }
{
    let memory = Memory::from_snapshot(alloc, kept)?;
    let mut bytes = Vec::from_elem(alloc, 0, memory.size() as usize)?;
    memory.copy_to(0, &mut bytes);
    Ok(Bytes::from_vec(bytes))
}
