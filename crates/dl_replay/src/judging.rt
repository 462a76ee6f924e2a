//! What the log says of a commit: it goes as logged, or why it doesn't.
ghost use Rattle.std.specs.Prelude.{◌≡◌, Some, ℕ, ◌+◌, ◌<◌, ◌≤◌, ◌^◌, length, slice_get, IfOk, OnOk, IfSome, OnSome, option_map};
ghost use Rattle.dl_entry.specs.Numbers.{most_bytes, most_threads};
ghost use Rattle.spec_isa.specs.declared.thread.Parts.{Parts};
ghost use Rattle.spec_isa.specs.Runs.{Run};
ghost use Rattle.spec_kernel.specs.Needs.{need};
ghost use Rattle.spec_play.specs.Effects.{Effect, chunk_effect};
ghost use Rattle.spec_play.specs.Progress.{Progress};
ghost use Rattle.spec_play.specs.Resuming.{IsBounded};
ghost use Rattle.spec_play.specs.Spawned.{AreNew};
ghost use Rattle.spec_play.specs.Verdicts.{ended, chunk_why, chunk_verdict, serial_why, given, serial_verdict};
ghost use Rattle.spec_play.specs.Transfers.{is_for, dma_verdict};
ghost use Rattle.dl_kernel.specs.Calls.{spawned_list};
ghost use Rattle.dl_kernel.specs.States.{state_in};
ghost use Rattle.spec_sphere.specs.promises.Sound.{IsSoundIf};
ghost use Rattle.dl_replay.specs.Replays.{Agrees};
ghost use Rattle.dl_replay.specs.Judging.{verdict_of, given_by, step_verdict, transfer_seen, transfer_verdict};

use crate::lookup::Lookup;
use dl_entry::{Actor, Input, OutOfMemory, Request, Why};
use dl_kernel::{
    Injected, State, Step, StepResult, counted, dma_words, inject, interrupted, serve,
    takes_interrupt, thread_at, wants_record,
};
use dl_mem::Memory;
use dl_mode::Mode;
use dl_thread::Thread;
use dl_wbuf::Buffer;
use spec_log::DmaRecord;
use spec_play::Used;
use std::alloc::Global;

/// The thread at the end of its commit, and what of the log is used then.
#[derive(Clone, Copy)]
pub struct Finish {
    pub thread: Thread,
    pub used: Used,
}

// An interrupt that is logged for the end of a thread's commit must be one that the thread takes.
fn ended<M: Mode>(log: &Lookup<M>, number: u8, thread: &Thread, used: Used) -> Result<Finish, Why>
    requires { used.interrupts + 1 < 2 ^ 32 }
    ensures verdict { (e : Effect) → e.thread ≡ thread.now → verdict_of result e ≡ ended log.now.log number e used }
    ensures commits { IfOk result (λ f. f.thread.commits ≡ thread.now.commits) }
    ensures interrupts { IfOk result (λ f. f.used.interrupts ≤ used.interrupts + 1) }
{
    let Some(value) = log.interrupt(number, thread.commits()) else {
        return Ok(Finish {
            thread: *thread,
            used,
        });
    };
    if !takes_interrupt(thread) {
        return Err(Why::Interrupt);
    }
    Ok(Finish {
        thread: interrupted(value, thread),
        used: Used {
            interrupts: used.interrupts + 1,
            ..used
        },
    })
}

// ---- chunks

/// Judges a chunk of a thread, which has run it, of so many instructions.
pub fn judge_chunk<M: Mode>(
    log: &Lookup<M>,
    used: Used,
    number: u8,
    thread: &Thread,
    total: u32,
) -> Result<Finish, Why>
    requires few { used.interrupts + 1 < 2 ^ 32 }
    requires commits { thread.now.commits + 1 < 2 ^ 32 }
    ensures verdict { (p : Progress) (r : Run) → r.thread ≡ thread.now → r.n ≡ total →
        verdict_of result (chunk_effect number p.request r) ≡ chunk_verdict log.now.log p used number r }
    ensures commits { IfOk result (λ f. f.thread.commits ≡ thread.now.commits + 1) }
    ensures interrupts { IfOk result (λ f. f.used.interrupts ≤ used.interrupts + 1) }
{
    let size = log.size(Actor::Thread(number), thread.commits());
    match chunk_why(size, total) {
        Some(why) => Err(why),
        None => ended(log, number, &counted(thread), used),
    }
}

// Why a chunk isn't the one that is logged: a serial step is, or a longer one.
fn chunk_why(size: Option<u32>, total: u32) -> Option<Why>
    ensures { result ≡ chunk_why size total }
{
    match size {
        Some(0) => Some(Why::NotSerial),
        Some(size) if total < size => Some(Why::Short(size, total)),
        Some(_) | None => None,
    }
}

// ---- serial steps

/// What a serial step leaves, and the end of its commit.
#[derive(Drop)]
pub struct Done {
    pub left: StepResult,
    pub finish: Finish,
}

/// The record that a serial step takes, if it wants one, and what of the log is used then.
#[derive(Clone, Copy)]
pub struct Taken<'a> {
    pub input: Option<&'a Input>,
    pub used: Used,
}

/// Judges a serial step of a thread, and does it apart from the sphere's state. Spawn is refused at as many threads as the
/// log may have.
pub fn judge_step<M: Mode>(
    alloc: Global,
    log: &Lookup<M>,
    number: u8,
    state: &State,
) -> Result<Result<Done, Why>, OutOfMemory>
    requires bounded { IsBounded log.now.log (state_in state.now) }
    requires few { state.now.commits + 1 < 2 ^ 32 }
    requires thread { number < length state.now.threads }
    requires request { IsSoundIf (length state.now.memory) state.now.request }
    ensures verdict { (p : Progress) (t : Parts) → let s = state.now in Agrees s p → slice_get s.threads number ≡ Some t →
        IfOk result (λ r. step_verdict number r ≡ serial_verdict log.now.log p s.used number s.threads t s.memory) }
    ensures commits { IfOk result (λ r. IfOk r (λ d. d.finish.thread.commits ≤ state.now.commits + 1)) }
    ensures interrupts { IfOk result (λ r. IfOk r (λ d. d.finish.used.interrupts ≤ state.now.used.interrupts + 1)) }
    ensures spawned { IfOk result (λ r. IfOk r (λ d. AreNew (spawned_list d.left.spawned))) }
    ensures room { IfOk result (λ r. IfOk r (λ d. OnSome d.left.spawned (length state.now.threads < most_threads))) }
    ensures request { IfOk result (λ r. IfOk r (λ d. IsSoundIf (length state.now.memory) d.left.request)) }
{
    let thread = thread_at(&state.threads, number);
    let size = log.size(Actor::Thread(number), thread.commits());
    if let Some(why) = serial_why(size) {
        return Ok(Err(why));
    }
    let Some(given) = given(log, state.used, &thread, &state.memory) else {
        return Ok(Err(Why::Input));
    };
    let step = Step {
        number,
        thread,
        threads: &state.threads,
        request: state.request,
        memory: &state.memory,
    };
    let left = serve(alloc, &step, given.input, log.threads())?;
    match ended(log, number, &counted(&left.thread), given.used) {
        Ok(finish) => Ok(Ok(Done { left, finish })),
        Err(why) => Ok(Err(why)),
    }
}

// A size over 0 is that of a chunk.
fn serial_why(size: Option<u32>) -> Option<Why>
    ensures { result ≡ serial_why size }
{
    match size {
        Some(0) | None => None,
        Some(size) => Some(Why::SizeOfSerial(size)),
    }
}

// The next record, if the step wants one and this one fits.
fn given<'a, M: Mode>(
    log: &'a Lookup<M>,
    used: Used,
    thread: &Thread,
    memory: &Memory,
) -> Option<Taken<'a>>
    ensures value { option_map given_by result ≡ given (need thread.now memory.now) (slice_get log.now.log.inputs used.inputs) used }
    ensures few { IfSome result (λ g. IfSome g.input (λ r. length r.now.bytes ≤ most_bytes)) }
    ensures interrupts { IfSome result (λ g. g.used.interrupts ≡ used.interrupts) }
{
    if !wants_record(thread, memory) {
        return Some(Taken { input: None, used });
    }
    let input = log.input(used.inputs)?;
    match inject(input, thread, memory) {
        Injected::Misfit => None,
        Injected::Fits => Some(Taken {
            input: Some(input),
            used: Used {
                inputs: used.inputs + 1,
                ..used
            },
        }),
    }
}

// ---- DMAs

/// A DMA that goes as it is logged: its request, and the bytes of its record.
#[derive(Clone, Copy)]
pub struct Transfer<'a> {
    pub request: Request,
    pub bytes: &'a [u8],
}

/// Judges a DMA.
pub fn transfer_of<'a, M: Mode>(log: &'a Lookup<M>, state: &State) -> Result<Transfer<'a>, Why>
    ensures verdict { (p : Progress) → Agrees state.now p → transfer_seen result ≡ dma_verdict log.now.log p state.now.used }
    ensures few { OnOk result (state.now.used.dmas + 1 < 2 ^ 32) }
    ensures request { IfOk result (λ t. state.now.request ≡ Some t.request) }
    ensures bytes { IfOk result (λ t. length t.bytes.now ≤ t.request.len) }
    ensures short { IfOk result (λ t. length t.bytes.now ≤ most_bytes) }
{
    if let Some(why) = serial_why(log.size(Actor::Dma, state.commits)) {
        return Err(why);
    }
    let (Some(request), Some(dma)) = (state.request, log.dma(state.used.dmas)) else {
        return Err(Why::Dma);
    };
    if !is_for(state.commits, request, dma) {
        return Err(Why::Dma);
    }
    Ok(Transfer {
        request,
        bytes: dma.bytes.as_slice(),
    })
}

/// Judges a DMA, and makes the words that it stores.
pub fn judge_dma<M: Mode>(
    alloc: Global,
    log: &Lookup<M>,
    state: &State,
) -> Result<Result<Buffer, Why>, OutOfMemory>
    requires { IsSoundIf (length state.now.memory) state.now.request }
    ensures verdict { (p : Progress) → Agrees state.now p →
        IfOk result (λ r. transfer_verdict r ≡ dma_verdict log.now.log p state.now.used) }
    ensures few { IfOk result (λ r. OnOk r (state.now.used.dmas + 1 < 2 ^ 32)) }
{
    // a memory ends below 2^32
    let _ = state.memory.size();
    match transfer_of(log, state) {
        Ok(transfer) => Ok(Ok(dma_words(alloc, &transfer.request, transfer.bytes)?)),
        Err(why) => Ok(Err(why)),
    }
}

// The record is for this commit, and no longer than the request.
fn is_for(commits: u32, request: Request, dma: &DmaRecord) -> bool
    ensures { result ≡ is_for commits request dma.now }
{
    dma.position == commits && dma.bytes.len() <= request.len as usize
}
