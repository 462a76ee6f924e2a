//! The numbers of records and logs that stand for something.
ghost use Rattle.std.specs.Prelude.{◌≡◌};
ghost use Rattle.dl_entry.specs.Numbers.{kind_write, kind_read, kind_random, kind_clock, kind_moment, kind_input, most_bytes, least_chunk};
ghost use Rattle.dl_entry.specs.Numbers.{most_chunk, most_chunk_v1, most_threads, plain_threads, dma_code, dma_half};

/// The kinds of records: of outside calls, and of the device words that can be read.
pub const KIND_WRITE: u8 = 2;

pub const KIND_READ: u8 = 3;

pub const KIND_RANDOM: u8 = 4;

pub const KIND_CLOCK: u8 = 5;

pub const KIND_MOMENT: u8 = 16;

pub const KIND_INPUT: u8 = 17;

/// The most bytes of a record.
pub const MOST_BYTES: usize = 4096;

/// The fewest and the most instructions of a standard chunk, and the most in version 1 of logs.
pub const LEAST_CHUNK: u32 = 16;

pub const MOST_CHUNK: u32 = 65536;

pub const MOST_CHUNK_V1: u32 = 4096;

/// The most threads of any sphere, and the most of a plain one, which are also the most in version 1 of logs.
pub const MOST_THREADS: u8 = 63;

pub const PLAIN_THREADS: u8 = 15;

/// A DMA's code, where a thread has its number: in a byte or a text, and in half a byte, as version 1 of logs has it.
pub const DMA_CODE: u8 = 63;

pub const DMA_HALF: u8 = 15;

/// Each constant is the number that its definition gives.
pub fn are_as_defined()
    ensures kinds { (KIND_WRITE ≡ kind_write) × (KIND_READ ≡ kind_read) × (KIND_RANDOM ≡ kind_random)
        × (KIND_CLOCK ≡ kind_clock) × (KIND_MOMENT ≡ kind_moment) × (KIND_INPUT ≡ kind_input) }
    ensures bytes { MOST_BYTES ≡ most_bytes }
    ensures chunks { (LEAST_CHUNK ≡ least_chunk) × (MOST_CHUNK ≡ most_chunk) × (MOST_CHUNK_V1 ≡ most_chunk_v1) }
    ensures threads { (MOST_THREADS ≡ most_threads) × (PLAIN_THREADS ≡ plain_threads) }
    ensures dma { (DMA_CODE ≡ dma_code) × (DMA_HALF ≡ dma_half) }
{}
