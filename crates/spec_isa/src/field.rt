//! The fields of an instruction, each a number of as many bits as its field has.
ghost use Rattle.std.specs.Prelude.{◌≡◌, ℕ, ◌<◌, ◌^◌};

use std::marker::Model;

/// The number of a register, from 0 to 31.
#[derive(Clone, Copy, Debug, PartialEq, Eq)]
pub struct Reg {
    number: u32,
}

impl Model for Reg {
    ghost Value = { ℕ };

    ghost view = { λ r. r.number };

    ghost invariant = { λ r. r.number < 2 ^ 5 };

    ghost inverse = { λ n. record { number = n } };
}

impl Reg {
    /// Register `number`.
    pub fn new(number: u32) -> Self
        requires { number < 2 ^ 5 }
        ensures { result ≡ number }
    {
        Reg { number }
    }

    /// Its number, from 0 to 31.
    pub fn number(self) -> u32
        ensures value { result ≡ self }
        ensures below { result < 2 ^ 5 }
    {
        self.number
    }
}

/// An immediate of 12 bits, not yet extended.
#[derive(Clone, Copy, Debug, PartialEq, Eq)]
pub struct Imm12 {
    bits: u32,
}

impl Model for Imm12 {
    ghost Value = { ℕ };

    ghost view = { λ r. r.bits };

    ghost invariant = { λ r. r.bits < 2 ^ 12 };

    ghost inverse = { λ n. record { bits = n } };
}

impl Imm12 {
    /// The immediate of these bits.
    pub fn new(bits: u32) -> Self
        requires { bits < 2 ^ 12 }
        ensures { result ≡ bits }
    {
        Imm12 { bits }
    }

    /// Its bits, below 2^12.
    pub fn bits(self) -> u32
        ensures value { result ≡ self }
        ensures below { result < 2 ^ 12 }
    {
        self.bits
    }
}

/// An immediate of 20 bits, not yet extended.
#[derive(Clone, Copy, Debug, PartialEq, Eq)]
pub struct Imm20 {
    bits: u32,
}

impl Model for Imm20 {
    ghost Value = { ℕ };

    ghost view = { λ r. r.bits };

    ghost invariant = { λ r. r.bits < 2 ^ 20 };

    ghost inverse = { λ n. record { bits = n } };
}

impl Imm20 {
    /// The immediate of these bits.
    pub fn new(bits: u32) -> Self
        requires { bits < 2 ^ 20 }
        ensures { result ≡ bits }
    {
        Imm20 { bits }
    }

    /// Its bits, below 2^20.
    pub fn bits(self) -> u32
        ensures value { result ≡ self }
        ensures below { result < 2 ^ 20 }
    {
        self.bits
    }
}
