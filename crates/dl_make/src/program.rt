//! The program of a number, in three parts, and what the number says of each.
ghost use Rattle.std.specs.Prelude.{◌≡◌, ◌<◌, ◌^◌};
ghost use Rattle.dl_make.specs.Generated as generated;

use crate::instruction::{add, addi, amoadd, bne_back, lw, slli, sw};
use dl_isa::Instr;

// -1 in twelve bits.
const MINUS_ONE: u32 = (1 << 12) - 1;

// The program's calls.
const EXIT: u32 = 0;

const SPAWN: u32 = 1;

// The registers of a call's number and of its arguments.
const A7: u32 = 17;

const A0: u32 = 10;

const A1: u32 = 11;

const A2: u32 = 12;

// The register that stays 0, and the one with the number of threads still to be spawned.
const ZERO: u32 = 0;

const LEFT: u32 = 8;

// The registers of each thread: the address of its own word, and how often it still adds.
const OWN: u32 = 5;

const AGAIN: u32 = 6;

// The number that it adds, the address of the shared word, what was there before, and what its own word takes.
const ADDED: u32 = 7;

const SHARED: u32 = 28;

const FOUND: u32 = 29;

const SUM: u32 = 30;

/// How many threads are spawned.
pub fn spawned(number: u32) -> u32
    ensures value { result ≡ generated.spawned_of number }
    ensures below { result < 2 ^ 12 }
{
    1 + number % 7
}

/// How often each thread adds.
pub fn rounds(number: u32) -> u32
    ensures value { result ≡ generated.rounds_of number }
    ensures below { result < 2 ^ 12 }
{
    16 + number / 8 % 1024
}

/// How far apart the threads' own words are, as a power of 2.
pub fn power(number: u32) -> u32
    ensures value { result ≡ generated.power_of number }
    ensures below { result < 2 ^ 5 }
{
    2 + number % 5
}

/// The first thread spawns the others.
pub fn spawning(spawned: u32) -> [Instr; 9]
    requires { spawned < 2 ^ 12 }
    ensures { result ≡ generated.spawning spawned }
{
    [
        addi(LEFT, ZERO, spawned),
        addi(A7, ZERO, SPAWN),
        addi(A0, ZERO, 36),
        addi(A1, ZERO, 0),
        addi(A2, LEFT, 0),
        Instr::Ecall,
        addi(LEFT, LEFT, MINUS_ONE),
        bne_back(LEFT, 24),
        addi(A0, ZERO, 0),
    ]
}

/// Each thread adds to the shared word and to its own.
pub fn adding(power: u32, rounds: u32) -> [Instr; 11]
    requires power { power < 2 ^ 5 }
    requires rounds { rounds < 2 ^ 12 }
    ensures { result ≡ generated.adding power rounds }
{
    [
        slli(OWN, A0, power),
        addi(OWN, OWN, 1024),
        addi(AGAIN, ZERO, rounds),
        addi(ADDED, ZERO, 1),
        addi(SHARED, ZERO, 992),
        amoadd(FOUND, ADDED, SHARED),
        lw(SUM, OWN),
        add(SUM, SUM, FOUND),
        sw(SUM, OWN),
        addi(AGAIN, AGAIN, MINUS_ONE),
        bne_back(AGAIN, 28),
    ]
}

/// Each thread ends with 0.
pub fn leaving() -> [Instr; 3]
    ensures { result ≡ generated.leaving }
{
    [addi(A7, ZERO, EXIT), addi(A0, ZERO, 0), Instr::Ecall]
}
