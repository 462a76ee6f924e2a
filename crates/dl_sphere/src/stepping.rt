//! The serial step of a sphere that isn't replayed.
ghost use Rattle.std.specs.Prelude.{◌≡◌, ◌^◌, ◌<◌, ◌∷◌, ◌++◌, [], ℕ, None, false, IfOk, OnOk, OnErr, OnSome, IfSome, length, option_map, IsTrue};
ghost use Rattle.dl_entry.specs.Numbers.{most_threads};
ghost use Rattle.spec_kernel.specs.Serving.{console_written};
ghost use Rattle.spec_log.specs.Log.{IsInput};
ghost use Rattle.spec_play.specs.Effects.{serial_commit};
ghost use Rattle.dl_kernel.specs.Calls.{spawned_list};
ghost use Rattle.dl_sphere.specs.Roles.{keeping_of, most_of, with_noted, CanNote};
ghost use Rattle.dl_sphere.specs.Stepping.{taken_by, served_by, commit_by};

use crate::part::{Part, note_reserved, reserve, threads_allowed};
use dl_dev::Devices;
use dl_entry::{Commit, Input, OutOfMemory, Request};
use dl_kernel::{Step, StepResult, outside_record, outside_take, serial_commit, serve};
use dl_thread::Thread;
use dl_wbuf::Buffer;
use std::alloc::Global;

// What a step leaves of its sphere: its commit, its thread, the thread that it spawned, the outstanding DMA request, and the
// words to fly.
#[derive(Drop)]
pub(crate) struct Left {
    pub(crate) commit: Commit,
    pub(crate) thread: Thread,
    pub(crate) spawned: Option<Thread>,
    pub(crate) request: Option<Request>,
    pub(crate) words: Buffer,
}

// Does the step, and notes its commit if the sphere is recorded; or nothing of all that. Spawn is refused at as many threads
// as the sphere may have.
#[tactic(auto, using(crate::proofs::Live::Devices::record_taken, crate::proofs::Live::Devices::devices_taken, crate::proofs::Live::Devices::input_taken))]
pub(crate) fn live_step(
    alloc: Global,
    part: &mut Part,
    step: &Step<'_>,
    devices: &mut Devices,
    moment: u32,
) -> Result<Left, OutOfMemory>
    requires note { CanNote (commit_by part.old step.now devices.old moment) false (keeping_of part.old) }
    ensures thread { IfOk result (λ l. l.thread ≡ (served_by part.old step.now devices.old moment).thread) }
    ensures spawned { IfOk result (λ l. spawned_list l.spawned ≡ (served_by part.old step.now devices.old moment).spawned) }
    ensures room { IfOk result (λ l. OnSome l.spawned (length step.now.threads.now < most_of (keeping_of part.old))) }
    ensures places { IfOk result (λ l. OnSome l.spawned (length step.now.threads.now < most_threads)) }
    ensures request { IfOk result (λ l. l.request ≡ (served_by part.old step.now devices.old moment).request) }
    ensures words { IfOk result (λ l. l.words.words ≡ (served_by part.old step.now devices.old moment).words) }
    ensures commit { IfOk result (λ l. l.commit ≡ commit_by part.old step.now devices.old moment) }
    ensures noted { OnOk result (keeping_of part.new
        ≡ with_noted (commit_by part.old step.now devices.old moment) false (taken_by step.now devices.old moment).input None (keeping_of part.old)) }
    ensures devices { let s = step.now in
        OnOk result (devices.new
        ≡ console_written s.thread s.memory.now (served_by part.old s devices.old moment).outputs (taken_by s devices.old moment).devices) }
    ensures part_still { OnErr result (keeping_of part.new ≡ keeping_of part.old) }
    ensures devices_still { OnErr result (devices.new ≡ devices.old) }
{
    // the proof sees here that the memory and the devices hold bytes
    let _ = step.memory.size();
    let _ = devices.input_left();
    let input = outside_record(alloc, &step.thread, step.memory, devices, moment)?;
    let served = serve(alloc, step, input.as_ref(), threads_allowed(part))?;
    let StepResult {
        thread,
        spawned,
        request,
        words,
        loads,
        outputs,
    } = served;
    let commit = serial_commit(step.number, loads, outputs);
    reserve(part)?;
    outside_take(&step.thread, step.memory, &commit.outputs, devices)?;
    note_reserved(part, &commit, input.as_ref());
    Ok(Left {
        commit,
        thread,
        spawned,
        request,
        words,
    })
}
