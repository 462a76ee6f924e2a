//! The numbers that stand for something.
ghost use Rattle.std.specs.Prelude.{◌≡◌};
ghost use Rattle.spec_kernel.specs.Numbers.{call_exit, call_spawn, call_write, call_read, call_random, call_clock, call_handler, call_iret, call_dma};
ghost use Rattle.spec_kernel.specs.Numbers.{call_self, call_yield, call_ended, pipe_count, channel_console, channel_input, pipe_size, most_input};
ghost use Rattle.spec_kernel.specs.Numbers.{random_stream};

/// The kernel calls.
pub const CALL_EXIT: u32 = 0;

pub const CALL_SPAWN: u32 = 1;

pub const CALL_WRITE: u32 = 2;

pub const CALL_READ: u32 = 3;

pub const CALL_RANDOM: u32 = 4;

pub const CALL_CLOCK: u32 = 5;

pub const CALL_HANDLER: u32 = 6;

pub const CALL_IRET: u32 = 7;

pub const CALL_DMA: u32 = 8;

pub const CALL_SELF: u32 = 9;

pub const CALL_YIELD: u32 = 10;

pub const CALL_ENDED: u32 = 11;

/// The channels below this number are pipes.
pub const PIPE_COUNT: usize = 8;

pub const CHANNEL_CONSOLE: u32 = 8;

pub const CHANNEL_INPUT: u32 = 9;

/// The bytes that a pipe holds.
pub const PIPE_SIZE: usize = 256;

/// The most bytes that are taken of an input.
pub const MOST_INPUT: usize = 1 << 24;

/// The stream that the random words come from.
pub const RANDOM_STREAM: u64 = 2;

/// Each constant is the number that its definition gives.
pub fn are_as_defined()
    ensures calls { (CALL_EXIT ≡ call_exit) × (CALL_SPAWN ≡ call_spawn) × (CALL_WRITE ≡ call_write)
        × (CALL_READ ≡ call_read) × (CALL_RANDOM ≡ call_random) × (CALL_CLOCK ≡ call_clock)
        × (CALL_HANDLER ≡ call_handler) × (CALL_IRET ≡ call_iret) × (CALL_DMA ≡ call_dma)
        × (CALL_SELF ≡ call_self) × (CALL_YIELD ≡ call_yield) × (CALL_ENDED ≡ call_ended) }
    ensures channels { (PIPE_COUNT ≡ pipe_count) × (CHANNEL_CONSOLE ≡ channel_console)
        × (CHANNEL_INPUT ≡ channel_input) }
    ensures sizes { (PIPE_SIZE ≡ pipe_size) × (MOST_INPUT ≡ most_input) }
    ensures stream { RANDOM_STREAM ≡ random_stream }
{}
