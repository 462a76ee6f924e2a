//! What a thread's next step, where it is serial, wants from outside.
ghost use Rattle.std.specs.Prelude.{◌≡◌, ◌+◌, ℕ, true, nat_le, length, IfSome};
ghost use Rattle.std.specs.Option.{option_map};
ghost use Rattle.spec_isa.specs.Arithmetic.{add, extended};
ghost use Rattle.spec_isa.specs.Operations.{operation, register};
ghost use Rattle.spec_isa.specs.Words.{is_inside};
ghost use Rattle.spec_kernel.specs.Needs.{need, need_of_call, need_of_load, need_of_write, need_of_read, need_of_random, next_kind, next_operation};
ghost use Rattle.dl_kernel.specs.Wants.{wanted, IsShort, IsIn};

use crate::peek::Peek;
use dl_entry::MOST_BYTES;
use dl_isa::decode;
use dl_mem::Memory;
use dl_thread::{Did, Kind, Thread, one};
use spec_isa::field::{Imm12, Reg};
use spec_isa::instr::Instr;
use spec_isa::numbers::{A0, A1, A2, A7, MOMENT_ADDRESS};
use spec_kernel::numbers::{CALL_CLOCK, CALL_RANDOM, CALL_READ, CALL_WRITE};

// What is wanted.
#[derive(Clone, Copy)]
pub(crate) enum Want<'a> {
    // To put these bytes on a channel.
    Write { channel: u32, bytes: &'a [u8] },
    // At most `len` bytes of a channel, for a buffer in the memory.
    Read { channel: u32, buf: u32, len: u32 },
    // `len` random bytes, for a buffer in the memory.
    Random { buf: u32, len: u32 },
    Clock,
    // The moment, by a load of its device word.
    MomentWord,
    // The next byte of the input, by a load of its device word.
    InputWord,
}

// What the thread's next step wants, if anything. The bytes of a write are copied to the buffer.
#[tactic(auto, using(crate::proofs::Causes::device_inside), unfolding(spec_kernel::specs::Needs::need))]
pub(crate) fn need<'a>(
    thread: &Thread,
    memory: &Memory,
    buffer: &'a mut [u8; MOST_BYTES],
) -> Option<Want<'a>>
    ensures want { option_map wanted result ≡ need thread.now memory.now }
    ensures short { IfSome result IsShort }
    ensures inside { IfSome result (IsIn (length memory.now)) }
{
    match next_kind(thread, memory) {
        Some(Kind::Call) => need_of_call(thread, memory, buffer),
        Some(Kind::DeviceLoad) => need_of_load(thread, memory),
        Some(Kind::Break | Kind::DeviceStore | Kind::Fault(_)) | None => None,
    }
}

// Why the thread's next step is serial, or none where it is not.
#[tactic(auto, using(crate::proofs::Causes::kind_found))]
pub(crate) fn next_kind(thread: &Thread, memory: &Memory) -> Option<Kind>
    ensures { result ≡ next_kind thread.now memory.now }
{
    let mut probe = *thread;
    match one(&mut probe, &mut Peek { memory }) {
        Did::Serial(kind) => Some(kind),
        Did::Next(_) | Did::NoRoom | Did::Bounced(_) => None,
    }
}

fn need_of_call<'a>(
    thread: &Thread,
    memory: &Memory,
    buffer: &'a mut [u8; MOST_BYTES],
) -> Option<Want<'a>>
    ensures want { option_map wanted result ≡ need_of_call thread.now memory.now }
    ensures short { IfSome result IsShort }
    ensures inside { IfSome result (IsIn (length memory.now)) }
{
    match thread.x()[A7] {
        CALL_WRITE => need_of_write(thread, memory, buffer),
        CALL_READ => need_of_read(thread, memory),
        CALL_RANDOM => need_of_random(thread, memory),
        CALL_CLOCK => Some(Want::Clock),
        _ => None,
    }
}

fn need_of_write<'a>(
    thread: &Thread,
    memory: &Memory,
    buffer: &'a mut [u8; MOST_BYTES],
) -> Option<Want<'a>>
    ensures want { option_map wanted result ≡ need_of_write thread.now memory.now }
    ensures short { IfSome result IsShort }
    ensures inside { IfSome result (IsIn (length memory.now)) }
{
    let x = thread.x();
    let (channel, buf, len) = (x[A0], x[A1], x[A2].min(MOST_BYTES as u32));
    if !has_buffer(memory, buf, len) {
        return None;
    }
    let bytes = &mut buffer[..len as usize];
    memory.copy_to(buf, bytes);
    Some(Want::Write { channel, bytes })
}

fn need_of_read<'a>(thread: &Thread, memory: &Memory) -> Option<Want<'a>>
    ensures want { option_map wanted result ≡ need_of_read thread.now memory.now }
    ensures short { IfSome result IsShort }
    ensures inside { IfSome result (IsIn (length memory.now)) }
{
    let x = thread.x();
    let (channel, buf, len) = (x[A0], x[A1], x[A2].min(MOST_BYTES as u32));
    if !has_buffer(memory, buf, len) {
        return None;
    }
    Some(Want::Read { channel, buf, len })
}

fn need_of_random<'a>(thread: &Thread, memory: &Memory) -> Option<Want<'a>>
    ensures want { option_map wanted result ≡ need_of_random thread.now memory.now }
    ensures short { IfSome result IsShort }
    ensures inside { IfSome result (IsIn (length memory.now)) }
{
    let x = thread.x();
    let (buf, len) = (x[A0], x[A1].min(MOST_BYTES as u32));
    if !has_buffer(memory, buf, len) {
        return None;
    }
    Some(Want::Random { buf, len })
}

// Whether a buffer ends in the memory.
fn has_buffer(memory: &Memory, buf: u32, len: u32) -> bool
    ensures { result ≡ nat_le (buf + len) (length memory.now) }
{
    u64::from(buf) + u64::from(len) <= u64::from(memory.size())
}

// What a device load wants.
#[tactic(auto, unfolding(spec_kernel::specs::Needs::next_operation))]
fn need_of_load<'a>(thread: &Thread, memory: &Memory) -> Option<Want<'a>>
    requires { is_inside (length memory.now) thread.now.pc ≡ true }
    ensures want { option_map wanted result ≡ need_of_load (next_operation thread.now memory.now) }
    ensures short { IfSome result IsShort }
    ensures inside { IfSome result (IsIn (length memory.now)) }
{
    match decode(memory.word(thread.pc())) {
        Some(instr) => device_word(instr, thread),
        None => None,
    }
}

// The device word that an instruction loads, by its address.
fn device_word<'a>(instr: Instr, thread: &Thread) -> Option<Want<'a>>
    ensures want { option_map wanted result ≡ need_of_load (operation instr thread.now) }
    ensures short { IfSome result IsShort }
    ensures inside { (size : ℕ) → IfSome result (IsIn size) }
{
    match instr {
        Instr::Load { rs1, offset, .. } => {
            if address(thread, rs1, offset) == MOMENT_ADDRESS {
                return Some(Want::MomentWord);
            }
            Some(Want::InputWord)
        }
        _ => None,
    }
}

// A register and an offset, the offset's sign copied into the bits above.
pub(crate) fn address(thread: &Thread, rs1: Reg, offset: Imm12) -> u32
    ensures { result ≡ add (register thread.now rs1) (extended 12 offset) }
{
    let bits = offset.bits();
    let offset = if bits < 1 << 11 {
        bits
    } else {
        bits + 0xFFFF_F000
    };
    thread.x()[rs1.number() as usize].wrapping_add(offset)
}
