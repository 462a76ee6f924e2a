//! The calls that the kernel does by itself, one by one. The arguments are in a0 to a2; the result goes to a0.
ghost use Rattle.std.specs.Prelude.{◌≡◌, ◌%◌, ◌<◌, length, slice_get, None, OnSome};
ghost use Rattle.spec_isa.specs.Threads.{IsThread};
ghost use Rattle.spec_kernel.specs.Calls.{called, with_result, gives, exit, spawn, spawned, set_handler, iret, returned, is_dma_buffer, request_dma, has_ended};
ghost use Rattle.dl_kernel.specs.Calls.{called_in};

use crate::results::{BAD_BUFFER, REFUSED, UNKNOWN_CALL};
use dl_entry::{MOST_BYTES, Request};
use dl_thread::{Parts, Thread, ThreadStatus, Threads};
use spec_isa::numbers::{A0, A1, A2, A7, SP};
use spec_kernel::numbers::{
    CALL_DMA, CALL_ENDED, CALL_EXIT, CALL_HANDLER, CALL_IRET, CALL_SELF, CALL_SPAWN, CALL_YIELD,
};

// What a call leaves: its thread, the thread that it spawned, and the outstanding DMA request.
#[derive(Clone, Copy)]
pub(crate) struct Called {
    pub(crate) thread: Parts,
    pub(crate) spawned: Option<Thread>,
    pub(crate) request: Option<Request>,
}

// A thread, and its number.
#[derive(Clone, Copy)]
pub(crate) struct Caller {
    pub(crate) number: u8,
    pub(crate) thread: Parts,
}

// The call whose number is in the caller's a7, in a memory of `size` bytes, in a sphere of at most `most` threads.
#[tactic(auto, unfolding(spec_kernel::specs::Calls::called))]
pub(crate) fn call(
    size: u32,
    most: u8,
    threads: &Threads,
    request: Option<Request>,
    caller: &Caller,
) -> Called
    requires { IsThread caller.now.thread }
    ensures called { called_in result
        ≡ called most size caller.now.number threads.now request caller.now.thread }
    ensures thread { IsThread result.thread }
    ensures room { OnSome result.spawned (length threads.now < most) }
{
    let t = &caller.thread;
    match t.x[A7] {
        CALL_EXIT => exit(request, t),
        CALL_SPAWN => spawn(most, threads, request, t),
        CALL_HANDLER => set_handler(request, t),
        CALL_IRET => iret(request, t),
        CALL_DMA => request_dma(size, request, t),
        CALL_SELF => gives(request, t, u32::from(caller.number)),
        CALL_YIELD => gives(request, t, 0),
        CALL_ENDED => gives(request, t, has_ended(threads, t.x[A0])),
        _ => gives(request, t, UNKNOWN_CALL),
    }
}

// The thread with a result, after its call.
pub(crate) fn with_result(answer: u32, t: &Parts) -> Parts
    requires { IsThread t.now }
    ensures value { result ≡ with_result answer t.now }
    ensures thread { IsThread result }
{
    let mut after = *t;
    after.x[A0] = answer;
    after.pc = t.pc.wrapping_add(4);
    after
}

// A result, and nothing else.
fn gives(request: Option<Request>, t: &Parts, answer: u32) -> Called
    requires { IsThread t.now }
    ensures called { called_in result ≡ gives request t.now answer }
    ensures thread { IsThread result.thread }
    ensures none { result.spawned ≡ None }
{
    Called {
        thread: with_result(answer, t),
        spawned: None,
        request,
    }
}

// The thread ends with the code in a0.
fn exit(request: Option<Request>, t: &Parts) -> Called
    requires { IsThread t.now }
    ensures called { called_in result ≡ exit request t.now }
    ensures thread { IsThread result.thread }
    ensures none { result.spawned ≡ None }
{
    let thread = Parts {
        pc: t.pc.wrapping_add(4),
        status: ThreadStatus::Ended(t.x[A0]),
        ..*t
    };
    Called {
        thread,
        spawned: None,
        request,
    }
}

// A new thread, if there may be one more and its entry is a multiple of 4.
fn spawn(most: u8, threads: &Threads, request: Option<Request>, t: &Parts) -> Called
    requires { IsThread t.now }
    ensures called { called_in result ≡ spawn most threads.now request t.now }
    ensures thread { IsThread result.thread }
    ensures room { OnSome result.spawned (length threads.now < most) }
{
    if threads.len() >= most {
        return gives(request, t, REFUSED);
    }
    if t.x[A0] % 4 != 0 {
        return gives(request, t, REFUSED);
    }
    Called {
        thread: with_result(u32::from(threads.len()), t),
        spawned: Some(spawned(t.x[A0], t.x[A1], t.x[A2])),
        request,
    }
}

// A thread at an entry, with a stack pointer and an argument.
fn spawned(entry: u32, sp: u32, argument: u32) -> Thread
    requires { entry % 4 ≡ 0 }
    ensures { result ≡ spawned entry sp argument }
{
    let mut parts = Thread::started(entry).parts();
    parts.x[SP] = sp;
    parts.x[A0] = argument;
    Thread::from_parts(&parts)
}

// The thread's handler, 0 for none, if it is a multiple of 4.
fn set_handler(request: Option<Request>, t: &Parts) -> Called
    requires { IsThread t.now }
    ensures called { called_in result ≡ set_handler request t.now }
    ensures thread { IsThread result.thread }
    ensures none { result.spawned ≡ None }
{
    let handler = t.x[A0];
    if handler % 4 != 0 {
        return gives(request, t, REFUSED);
    }
    let thread = Parts {
        handler,
        ..with_result(0, t)
    };
    Called {
        thread,
        spawned: None,
        request,
    }
}

// Back from the handler, if it runs.
fn iret(request: Option<Request>, t: &Parts) -> Called
    requires { IsThread t.now }
    ensures called { called_in result ≡ iret request t.now }
    ensures thread { IsThread result.thread }
    ensures none { result.spawned ≡ None }
{
    if !t.mask {
        return gives(request, t, REFUSED);
    }
    Called {
        thread: returned(t),
        spawned: None,
        request,
    }
}

// The thread where its interrupt came.
fn returned(t: &Parts) -> Parts
    requires { IsThread t.now }
    ensures value { result ≡ returned t.now }
    ensures thread { IsThread result }
{
    let mut after = Parts {
        pc: t.saved_pc,
        mask: false,
        saved_pc: 0,
        saved_a0: 0,
        saved_a1: 0,
        ..*t
    };
    after.x[A0] = t.saved_a0;
    after.x[A1] = t.saved_a1;
    after
}

// A DMA request, if its buffer is words inside the memory, and no other is outstanding.
fn request_dma(size: u32, request: Option<Request>, t: &Parts) -> Called
    requires { IsThread t.now }
    ensures called { called_in result ≡ request_dma size request t.now }
    ensures thread { IsThread result.thread }
    ensures none { result.spawned ≡ None }
{
    let (buf, len) = (t.x[A0], t.x[A1].min(MOST_BYTES as u32));
    if !is_dma_buffer(size, buf, len) {
        return gives(request, t, BAD_BUFFER);
    }
    if request.is_some() {
        return gives(request, t, REFUSED);
    }
    gives(Some(Request { buf, len }), t, 0)
}

// Whether a DMA of at most `len` bytes, with a word before them, has a place at `buf`.
fn is_dma_buffer(size: u32, buf: u32, len: u32) -> bool
    ensures { result ≡ is_dma_buffer size buf len }
{
    buf % 4 == 0 && u64::from(buf) + 4 + u64::from(len) <= u64::from(size)
}

// 0 for a thread that is live, 1 for one that is not, and refused where there is none.
fn has_ended(threads: &Threads, number: u32) -> u32
    ensures { result ≡ has_ended (slice_get threads.now number) }
{
    if number >= u32::from(threads.len()) {
        return REFUSED;
    }
    match threads.get(number as u8) {
        None => REFUSED,
        Some(thread) => match thread.status() {
            ThreadStatus::Live => 0,
            ThreadStatus::Ended(_) | ThreadStatus::Fault(_) => 1,
        },
    }
}
