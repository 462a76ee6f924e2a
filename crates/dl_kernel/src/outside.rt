//! Outside calls and device loads.
ghost use Rattle.std.specs.Prelude.{◌≡◌, ◌≤◌, ℕ, false, length, IfOk, IsOk, OnOk, OnErr};
ghost use Rattle.spec_kernel.specs.Needs.{need};
ghost use Rattle.spec_kernel.specs.Serving.{console_written, bytes_out};
ghost use Rattle.spec_kernel.specs.Devices.{console_put};
ghost use Rattle.dl_kernel.specs.Outside.{record_left, devices_left, wants_memory};

use crate::answering::{answer, noted, take};
use crate::need::{need, next_kind};
use dl_dev::Devices;
use dl_entry::{Input, MOST_BYTES, OutOfMemory, Outputs};
use dl_mem::Memory;
use dl_thread::{Kind, Thread};
use std::alloc::Global;

/// Asks the devices for what the thread's next step wants: a write, a read, random bytes, the clock, or a load of a device
/// word, at a moment modulo 2^32. The answer is the record that the step leaves: none where the call's buffer is bad, or
/// the step wants nothing. Where memory is wanting, the devices are as before.
pub fn outside_call(
    alloc: Global,
    thread: &Thread,
    memory: &Memory,
    devices: &mut Devices,
    moment: u32,
) -> Result<Option<Input>, OutOfMemory>
    ensures left { IfOk result (λ input. input ≡ record_left moment devices.old (need thread.now memory.now)) }
    ensures devices { OnOk result (devices.new ≡ devices_left moment devices.old (need thread.now memory.now)) }
    ensures refused { OnErr result (devices.new ≡ devices.old) }
    ensures plenty { wants_memory (need thread.now memory.now) ≡ false → IsOk result }
{
    match need(thread, memory, &mut [0; MOST_BYTES]) {
        None => Ok(None),
        Some(want) => match answer(alloc, want, devices, moment) {
            Ok(input) => Ok(Some(input)),
            Err(error) => Err(error),
        },
    }
}

/// The record that `outside_call` would leave at a moment. Nothing is taken of the devices.
pub fn outside_record(
    alloc: Global,
    thread: &Thread,
    memory: &Memory,
    devices: &Devices,
    moment: u32,
) -> Result<Option<Input>, OutOfMemory>
    ensures left { IfOk result (λ input. input ≡ record_left moment devices.now (need thread.now memory.now)) }
    ensures plenty { wants_memory (need thread.now memory.now) ≡ false → IsOk result }
{
    match need(thread, memory, &mut [0; MOST_BYTES]) {
        None => Ok(None),
        Some(want) => match noted(alloc, want, devices, moment) {
            Ok(input) => Ok(Some(input)),
            Err(error) => Err(error),
        },
    }
}

/// Takes of the devices, or puts there, what the thread's next step does, whatever the moment: what `outside_call` would, or
/// the byte of a store to the console's word, which is the one output that the step leaves. Where memory is wanting, the
/// devices are as before.
#[tactic(auto, unfolding(spec_kernel::specs::Needs::need, spec_kernel::specs::Serving::console_written))]
pub fn outside_take(
    thread: &Thread,
    memory: &Memory,
    outputs: &Outputs,
    devices: &mut Devices,
) -> Result<(), OutOfMemory>
    requires { length outputs.now ≤ 1 }
    ensures devices { (moment : ℕ) → OnOk result (devices.new
        ≡ console_written thread.now memory.now outputs.now (devices_left moment devices.old (need thread.now memory.now))) }
    ensures refused { OnErr result (devices.new ≡ devices.old) }
{
    match next_kind(thread, memory) {
        Some(Kind::DeviceStore) => tell_console(outputs, devices),
        Some(Kind::Call | Kind::Break | Kind::DeviceLoad | Kind::Fault(_)) | None => {
            take_wanted(thread, memory, devices)
        }
    }
}

fn take_wanted(thread: &Thread, memory: &Memory, devices: &mut Devices) -> Result<(), OutOfMemory>
    ensures devices { (moment : ℕ) → OnOk result (devices.new ≡ devices_left moment devices.old (need thread.now memory.now)) }
    ensures refused { OnErr result (devices.new ≡ devices.old) }
{
    match need(thread, memory, &mut [0; MOST_BYTES]) {
        None => Ok(()),
        Some(want) => take(want, devices),
    }
}

fn tell_console(outputs: &Outputs, devices: &mut Devices) -> Result<(), OutOfMemory>
    requires { length outputs.now ≤ 1 }
    ensures ok { OnOk result (devices.new ≡ console_put (bytes_out outputs.now) devices.old) }
    ensures err { OnErr result (devices.new ≡ devices.old) }
{
    if let Some(output) = outputs.get(0) {
        devices.console_put(output.bytes.as_slice())?;
    }
    Ok(())
}
