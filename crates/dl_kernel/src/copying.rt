//! The words that the kernel and a DMA store, in rising order of their addresses.
ghost use Rattle.std.specs.Prelude.{◌≡◌, ◌+◌, ◌^◌, ◌<◌, ◌≤◌, ◌%◌, ◌/◌, ℕ, length, IfOk, true};
ghost use Rattle.dl_entry.specs.Numbers.{most_bytes};
ghost use Rattle.spec_isa.specs.Words.{put};
ghost use Rattle.spec_isa.specs.Masks.{bytes_of};
ghost use Rattle.spec_isa.specs.Operations.{stored};
ghost use Rattle.spec_kernel.specs.Copies.{copied, dma_words};
ghost use Rattle.dl_wbuf.specs.Buffers.{has_room};

use dl_entry::{OutOfMemory, Request};
use dl_wbuf::Buffer;
use std::alloc::Global;

/// The words of a copy of these bytes to an address, at most 4,100 bytes that end below 2^32.
#[tactic(auto, using(crate::proofs::Spans::copying_start, crate::proofs::Spans::copying_room, crate::proofs::Spans::copying_more, crate::proofs::Spans::put_next), unfolding(spec_kernel::specs::Copies::bytes_put))]
pub fn copied(alloc: Global, addr: u32, bytes: &[u8]) -> Result<Buffer, OutOfMemory>
    requires few { length bytes.now ≤ 4100 }
    requires below { addr + length bytes.now < 2 ^ 32 }
    ensures { IfOk result (λ buffer. buffer.words ≡ copied addr bytes.now) }
{
    let mut words = Buffer::new(alloc, words_spanned(addr, bytes.len()))?;
    for i in 0..bytes.len() {
        put_byte(&mut words, addr + i as u32, bytes[i]);
    }
    Ok(words)
}

// How many words so many bytes lie in from an address on, or 1 for no byte.
fn words_spanned(addr: u32, len: usize) -> u32
    requires { len ≤ 4100 }
    ensures spanned { (addr + len + 3) / 4 ≤ result + addr / 4 }
    ensures least { 1 ≤ result }
    ensures most { result ≤ 4096 }
{
    ((addr % 4) as usize + len + 3) as u32 / 4 + 1
}

// Stores one byte in its word, for which there is room.
fn put_byte(words: &mut Buffer, addr: u32, byte: u8)
    requires { has_room words.old (addr / 4) ≡ true }
    ensures words { words.new.words ≡ put words.old.words (stored 1 addr byte) }
    ensures capacity { words.new.capacity ≡ words.old.capacity }
{
    let lane = lane_of(addr, u32::from(byte));
    match words.put(addr / 4 * 4, lane.mask, lane.value) {
        Ok(()) => {}
        Err(_) => unreachable!(),
    }
}

// One byte of a word, as a mask and a value.
#[derive(Clone, Copy)]
struct Lane {
    mask: u8,
    value: u32,
}

// A value's low byte in its word.
#[tactic(auto, using(dl_thread::proofs::Lanes::byte_bytes), unfolding(spec_isa::specs::Masks::bytes_of))]
fn lane_of(addr: u32, value: u32) -> Lane
    ensures { bytes_of (addr / 4) result.mask result.value ≡ stored 1 addr value }
{
    let place = addr % 4;
    Lane {
        mask: 1 << place,
        value: value % (1 << 8) << (8 * place),
    }
}

/// The words of a DMA that stores these bytes, at most 4,096: their number in the request's first word, and the bytes after
/// it. The request ends below 2^32.
pub fn dma_words(alloc: Global, request: &Request, bytes: &[u8]) -> Result<Buffer, OutOfMemory>
    requires few { length bytes.now ≤ most_bytes }
    requires below { request.now.buf + 4 + length bytes.now < 2 ^ 32 }
    ensures { IfOk result (λ buffer. buffer.words ≡ dma_words request.now bytes.now) }
{
    let mut data = Vec::with_capacity(alloc, 4 + bytes.len())?;
    data.extend_from_slice(&(bytes.len() as u32).to_le_bytes())?;
    data.extend_from_slice(bytes)?;
    copied(alloc, request.buf, &data)
}
