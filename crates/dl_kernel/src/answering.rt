//! What the devices answer to each want: the record that the answer leaves, and what it takes of the devices.
ghost use Rattle.std.specs.Prelude.{◌≡◌, ◌≢◌, ◌≤◌, ◌<◌, ◌-◌, ℕ, min, false, length, [], Some, IfOk, IsOk, OnOk, OnErr};
ghost use Rattle.spec_kernel.specs.Answers.{answer, answer_write, answer_read, answer_random, answer_moment, answer_input, went};
ghost use Rattle.spec_kernel.specs.Devices.{pipe_at};
ghost use Rattle.spec_kernel.specs.Numbers.{channel_console, channel_input, pipe_count, pipe_size};
ghost use Rattle.dl_entry.specs.Numbers.{most_bytes};
ghost use Rattle.dl_kernel.specs.Outside.{Leaves, wants_memory};
ghost use Rattle.dl_kernel.specs.Wants.{wanted, IsShort};

use crate::need::Want;
use crate::results::{NOTHING_NOW, REFUSED};
use dl_dev::Devices;
use dl_entry::{
    Bytes, Input, KIND_CLOCK, KIND_INPUT, KIND_MOMENT, KIND_RANDOM, KIND_READ, KIND_WRITE,
    MOST_BYTES, OutOfMemory,
};
use spec_kernel::numbers::{CHANNEL_CONSOLE, CHANNEL_INPUT, PIPE_COUNT, PIPE_SIZE};
use std::alloc::Global;

// The answer at a moment.
pub(crate) fn answer(
    alloc: Global,
    want: Want<'_>,
    devices: &mut Devices,
    moment: u32,
) -> Result<Input, OutOfMemory>
    requires { IsShort want }
    ensures left { Leaves result devices.old devices.new (answer devices.old (wanted want.entry) moment) }
    ensures plenty { wants_memory (Some (wanted want.entry)) ≡ false → IsOk result }
{
    let input = noted(alloc, want, devices, moment)?;
    take(want, devices)?;
    Ok(input)
}

// The record that the answer at a moment leaves.
#[tactic(auto, unfolding(spec_kernel::specs::Answers::answer))]
pub(crate) fn noted(
    alloc: Global,
    want: Want<'_>,
    devices: &Devices,
    moment: u32,
) -> Result<Input, OutOfMemory>
    requires { IsShort want }
    ensures value { IfOk result (λ input. input ≡ (answer devices.now (wanted want.entry) moment).input) }
    ensures plenty { wants_memory (Some (wanted want.entry)) ≡ false → IsOk result }
{
    match want {
        Want::Write { channel, bytes } => Ok(write(alloc, devices, channel, bytes)),
        Want::Read { channel, len, .. } => read(alloc, devices, channel, len),
        Want::Random { len, .. } => random(alloc, devices, len),
        Want::Clock => Ok(bare(alloc, KIND_CLOCK, moment)),
        Want::MomentWord => Ok(bare(alloc, KIND_MOMENT, moment)),
        Want::InputWord => Ok(next_input(alloc, devices)),
    }
}

// What the answer takes of the devices, or puts there, at any moment.
#[tactic(auto, unfolding(spec_kernel::specs::Answers::answer))]
pub(crate) fn take(want: Want<'_>, devices: &mut Devices) -> Result<(), OutOfMemory>
    requires { IsShort want }
    ensures ok { (moment : ℕ) → OnOk result (devices.new ≡ (answer devices.old (wanted want.entry) moment).devices) }
    ensures err { OnErr result (devices.new ≡ devices.old) }
    ensures plenty { wants_memory (Some (wanted want.entry)) ≡ false → IsOk result }
{
    match want {
        Want::Write { channel, bytes } => put(devices, channel, bytes),
        Want::Read { channel, len, .. } => Ok(take_bytes(devices, channel, len)),
        Want::Random { len, .. } => Ok(devices.random(&mut [0; MOST_BYTES][..len as usize])),
        Want::Clock | Want::MomentWord => Ok(()),
        Want::InputWord => Ok(devices.input_take(1)),
    }
}

// A record without bytes.
fn bare(alloc: Global, kind: u8, answer: u32) -> Input
    ensures { result ≡ record { kind = kind; result = answer; bytes = [] } }
{
    Input {
        kind,
        result: answer,
        bytes: Bytes::new(alloc),
    }
}

// The number of bytes that went; none of a length over 0 is 'nothing now'.
fn went(count: u32, len: u32) -> u32
    ensures { result ≡ went count len }
{
    if count == 0 && len != 0 {
        NOTHING_NOW
    } else {
        count
    }
}

fn write(alloc: Global, devices: &Devices, channel: u32, bytes: &[u8]) -> Input
    requires { length bytes.now ≤ most_bytes }
    ensures { result ≡ (answer_write devices.now channel bytes.now).input }
{
    let len = bytes.len() as u32;
    if channel < PIPE_COUNT as u32 {
        return bare(
            alloc,
            KIND_WRITE,
            went(fitting(devices, channel as u8, len), len),
        );
    }
    if channel == CHANNEL_CONSOLE {
        return bare(alloc, KIND_WRITE, len);
    }
    bare(alloc, KIND_WRITE, REFUSED)
}

// How many of so many bytes find room in a pipe.
fn fitting(devices: &Devices, pipe: u8, len: u32) -> u32
    requires { pipe < pipe_count }
    ensures { result ≡ min (pipe_size - length (pipe_at devices.now pipe)) len }
{
    let held = devices.pipe_first(pipe, &mut [0; PIPE_SIZE]);
    len.min(PIPE_SIZE as u32 - held)
}

fn put(devices: &mut Devices, channel: u32, bytes: &[u8]) -> Result<(), OutOfMemory>
    ensures ok { OnOk result (devices.new ≡ (answer_write devices.old channel bytes.now).devices) }
    ensures err { OnErr result (devices.new ≡ devices.old) }
    ensures plenty { channel ≢ channel_console → IsOk result }
{
    if channel < PIPE_COUNT as u32 {
        devices.pipe_put(channel as u8, bytes);
    } else if channel == CHANNEL_CONSOLE {
        devices.console_put(bytes)?;
    }
    Ok(())
}

fn read(alloc: Global, devices: &Devices, channel: u32, len: u32) -> Result<Input, OutOfMemory>
    requires { len ≤ most_bytes }
    ensures { IfOk result (λ input. input ≡ (answer_read devices.now channel len).input) }
{
    if channel < PIPE_COUNT as u32 {
        return read_pipe(alloc, devices, channel as u8, len);
    }
    if channel == CHANNEL_INPUT {
        return read_input(alloc, devices, len);
    }
    Ok(bare(alloc, KIND_READ, REFUSED))
}

fn read_pipe(alloc: Global, devices: &Devices, pipe: u8, len: u32) -> Result<Input, OutOfMemory>
    requires pipe { pipe < pipe_count }
    requires len { len ≤ most_bytes }
    ensures { IfOk result (λ input. input ≡ (answer_read devices.now pipe len).input) }
{
    let mut buffer = [0; MOST_BYTES];
    let into = &mut buffer[..len as usize];
    let count = devices.pipe_first(pipe, into);
    Ok(Input {
        kind: KIND_READ,
        result: went(count, len),
        bytes: Bytes::from_slice(alloc, &into[..count as usize])?,
    })
}

fn read_input(alloc: Global, devices: &Devices, len: u32) -> Result<Input, OutOfMemory>
    requires { len ≤ most_bytes }
    ensures { IfOk result (λ input. input ≡ (answer_read devices.now channel_input len).input) }
{
    let count = devices.input_left().min(len);
    Ok(Input {
        kind: KIND_READ,
        result: went(count, len),
        bytes: Bytes::from_slice(alloc, &devices.input()[..count as usize])?,
    })
}

// Takes at most `len` bytes of a channel.
fn take_bytes(devices: &mut Devices, channel: u32, len: u32)
    requires { len ≤ most_bytes }
    ensures { devices.new ≡ (answer_read devices.old channel len).devices }
{
    if channel < PIPE_COUNT as u32 {
        devices.pipe_get(channel as u8, &mut [0; MOST_BYTES][..len as usize]);
    } else if channel == CHANNEL_INPUT {
        devices.input_take(len);
    }
}

fn random(alloc: Global, devices: &Devices, len: u32) -> Result<Input, OutOfMemory>
    requires { len ≤ most_bytes }
    ensures { IfOk result (λ input. input ≡ (answer_random devices.now len).input) }
{
    let mut buffer = [0; MOST_BYTES];
    let into = &mut buffer[..len as usize];
    devices.random_first(into);
    Ok(Input {
        kind: KIND_RANDOM,
        result: len,
        bytes: Bytes::from_slice(alloc, into)?,
    })
}

// A word of all ones stands for no byte.
fn next_input(alloc: Global, devices: &Devices) -> Input
    ensures { result ≡ (answer_input devices.now).input }
{
    let byte = devices.input().first();
    bare(
        alloc,
        KIND_INPUT,
        byte.map_or(u32::MAX, |byte| u32::from(*byte)),
    )
}
