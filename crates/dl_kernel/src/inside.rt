//! A call that the kernel does by itself.
ghost use Rattle.std.specs.Prelude.{◌≡◌, ◌≢◌, ℕ, ◌<◌, ◌≤◌, ◌++◌, Some, length, slice_get, slice_set};
ghost use Rattle.spec_isa.specs.declared.thread.Parts.{Parts};
ghost use Rattle.spec_isa.specs.Numbers.{row_places};
ghost use Rattle.spec_kernel.specs.Calls.{called};

use crate::calls::{Caller, call};
use dl_entry::Request;
use dl_thread::{Thread, Threads};

/// Does the call of thread `thread`, whose next instruction is an ECALL that asks for nothing from outside: exit, spawn,
/// handler, iret, dma, self, yield or ended, or one that is unknown. `size` is the number of bytes of the memory, and at
/// `most` threads spawn is refused. Only this thread changes, and a thread that is spawned comes last.
pub fn sphere_call(
    threads: &mut Threads,
    thread: u8,
    request: &mut Option<Request>,
    size: u32,
    most: u8,
)
    requires thread { thread < length threads.old }
    requires places { most ≤ row_places }
    ensures threads { (t : Parts) → slice_get threads.old thread ≡ Some t →
        let c = called most size thread threads.old request.old t in
        threads.new ≡ slice_set threads.old thread c.thread ++ c.spawned }
    ensures request { (t : Parts) → slice_get threads.old thread ≡ Some t →
        request.new ≡ (called most size thread threads.old request.old t).request }
    ensures others { (k : ℕ) → k < length threads.old → k ≢ thread →
        slice_get threads.new k ≡ slice_get threads.old k }
    ensures kept { length threads.old ≤ length threads.new }
{
    let Some(found) = threads.get(thread) else {
        return;
    };
    let caller = Caller {
        number: thread,
        thread: found.parts(),
    };
    let called = call(size, most, threads, *request, &caller);
    threads.set(thread, &Thread::from_parts(&called.thread));
    if let Some(spawned) = called.spawned {
        let _ = threads.add(&spawned);
    }
    *request = called.request;
}
