//! The numbers that stand for something.
ghost use Rattle.std.specs.Prelude.{◌≡◌};
ghost use Rattle.spec_isa.specs.Numbers.{register_sp, register_a0, register_a1, register_a2, register_a7, jump_misaligned, fetch_outside, illegal};
ghost use Rattle.spec_isa.specs.Numbers.{breakpoint, load_misaligned, load_outside, store_misaligned, store_outside, moment_address, input_address};
ghost use Rattle.spec_isa.specs.Numbers.{console_address};

/// The registers of a call, by their names in the calling convention: the stack pointer, the arguments, of which the
/// first takes the result, and the call's number.
pub const SP: usize = 2;

pub const A0: usize = 10;

pub const A1: usize = 11;

pub const A2: usize = 12;

pub const A7: usize = 17;

/// The causes of faults, as the ISA numbers them.
pub const JUMP_MISALIGNED: u8 = 0;

pub const FETCH_OUTSIDE: u8 = 1;

pub const ILLEGAL: u8 = 2;

pub const BREAKPOINT: u8 = 3;

pub const LOAD_MISALIGNED: u8 = 4;

pub const LOAD_OUTSIDE: u8 = 5;

pub const STORE_MISALIGNED: u8 = 6;

pub const STORE_OUTSIDE: u8 = 7;

/// The addresses of the device words: the moment, the next byte of the input, and the console.
pub const MOMENT_ADDRESS: u32 = 0xF000_0000;

pub const INPUT_ADDRESS: u32 = 0xF000_0004;

pub const CONSOLE_ADDRESS: u32 = 0xF000_0008;

/// Each constant is the number that its definition gives.
pub fn are_as_defined()
    ensures registers { (SP ≡ register_sp) × (A0 ≡ register_a0) × (A1 ≡ register_a1) × (A2 ≡ register_a2)
        × (A7 ≡ register_a7) }
    ensures causes { (JUMP_MISALIGNED ≡ jump_misaligned) × (FETCH_OUTSIDE ≡ fetch_outside) × (ILLEGAL ≡ illegal)
        × (BREAKPOINT ≡ breakpoint) × (LOAD_MISALIGNED ≡ load_misaligned)
        × (LOAD_OUTSIDE ≡ load_outside) × (STORE_MISALIGNED ≡ store_misaligned)
        × (STORE_OUTSIDE ≡ store_outside) }
    ensures addresses { (MOMENT_ADDRESS ≡ moment_address) × (INPUT_ADDRESS ≡ input_address)
        × (CONSOLE_ADDRESS ≡ console_address) }
{}
