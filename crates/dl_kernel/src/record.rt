//! Records of a log, which stand for what came from outside.
ghost use Rattle.std.specs.Prelude.{◌≡◌, is_some};
ghost use Rattle.spec_kernel.specs.Needs.{need};
ghost use Rattle.spec_kernel.specs.Records.{fits, fits_if, fits_write, fits_read, fits_random, went_nowhere};
ghost use Rattle.dl_kernel.specs.Outside.{injected};
ghost use Rattle.dl_kernel.specs.Wants.{wanted};

use crate::need::{Want, need};
use crate::results::{NOTHING_NOW, REFUSED};
use dl_entry::{
    Input, KIND_CLOCK, KIND_INPUT, KIND_MOMENT, KIND_RANDOM, KIND_READ, KIND_WRITE, MOST_BYTES,
};
use dl_mem::Memory;
use dl_thread::Thread;

/// Whether a record can have been the answer to a step.
#[derive(Clone, Copy, Debug, PartialEq, Eq)]
pub enum Injected {
    Fits,
    Misfit,
}

/// Whether the thread's next step wants a record from outside.
pub fn wants_record(thread: &Thread, memory: &Memory) -> bool
    ensures { result ≡ is_some (need thread.now memory.now) }
{
    need(thread, memory, &mut [0; MOST_BYTES]).is_some()
}

/// Whether a record of a log is of the kind that the thread's next step wants, and could have been its answer. No record
/// fits a step that wants nothing.
pub fn inject(input: &Input, thread: &Thread, memory: &Memory) -> Injected
    ensures { result ≡ injected (fits_if (need thread.now memory.now) input.now) }
{
    let mut buffer = [0; MOST_BYTES];
    let Some(want) = need(thread, memory, &mut buffer) else {
        return Injected::Misfit;
    };
    if fits(want, input) {
        Injected::Fits
    } else {
        Injected::Misfit
    }
}

#[tactic(auto, unfolding(spec_kernel::specs::Records::fits))]
fn fits(want: Want<'_>, input: &Input) -> bool
    ensures { result ≡ fits (wanted want.entry) input.now }
{
    match want {
        Want::Write { bytes, .. } => input.kind == KIND_WRITE && fits_write(bytes.len(), input),
        Want::Read { len, .. } => input.kind == KIND_READ && fits_read(len, input),
        Want::Random { len, .. } => input.kind == KIND_RANDOM && fits_random(len, input),
        Want::Clock => input.kind == KIND_CLOCK && input.bytes.is_empty(),
        Want::MomentWord => input.kind == KIND_MOMENT && input.bytes.is_empty(),
        Want::InputWord => input.kind == KIND_INPUT && input.bytes.is_empty(),
    }
}

// A write took some of the bytes, or none.
fn fits_write(len: usize, input: &Input) -> bool
    ensures { result ≡ fits_write len input.now }
{
    (input.result as usize <= len || went_nowhere(input)) && input.bytes.is_empty()
}

// A read brought as many bytes as it says, or none.
fn fits_read(len: u32, input: &Input) -> bool
    ensures { result ≡ fits_read len input.now }
{
    if input.result <= len && input.bytes.len() == input.result as usize {
        return true;
    }
    went_nowhere(input) && input.bytes.is_empty()
}

fn fits_random(len: u32, input: &Input) -> bool
    ensures { result ≡ fits_random len input.now }
{
    input.result == len && input.bytes.len() == len as usize
}

fn went_nowhere(input: &Input) -> bool
    ensures { result ≡ went_nowhere input.now }
{
    input.result == NOTHING_NOW || input.result == REFUSED
}
