//! A word of code, read by the places of its fields; immediates are bits, not yet extended.
ghost use Rattle.std.specs.Prelude.{◌≡◌, ℕ, ◌+◌, ◌*◌, ◌^◌};
ghost use Rattle.dl_isa.specs.Places.{opcode_of, rd_of, funct3_of, rs1_of, rs2_of, funct7_of, upper_of, funct5_of, acquire_of, release_of};
ghost use Rattle.spec_isa.specs.Denoted.{branch_offset, jump_offset};

use spec_isa::field::{Imm12, Imm20, Reg};

/// A word of code.
#[derive(Clone, Copy)]
pub struct Word(pub u32);

impl Word {
    pub fn opcode(self) -> u32
        ensures { result ≡ opcode_of self.0 }
    {
        self.0 & 0x7F
    }

    pub fn rd(self) -> Reg
        ensures { result ≡ rd_of self.0 }
    {
        Reg::new(self.0 >> 7 & 0x1F)
    }

    pub fn funct3(self) -> u32
        ensures { result ≡ funct3_of self.0 }
    {
        self.0 >> 12 & 7
    }

    pub fn rs1(self) -> Reg
        ensures { result ≡ rs1_of self.0 }
    {
        Reg::new(self.0 >> 15 & 0x1F)
    }

    pub fn rs2(self) -> Reg
        ensures { result ≡ rs2_of self.0 }
    {
        Reg::new(self.0 >> 20 & 0x1F)
    }

    pub fn funct7(self) -> u32
        ensures { result ≡ funct7_of self.0 }
    {
        self.0 >> 25
    }

    /// The highest five bits, which tell atomic instructions apart.
    pub fn funct5(self) -> u32
        ensures { result ≡ funct5_of self.0 }
    {
        self.0 >> 27
    }

    /// The bit aq of an atomic instruction.
    pub fn acquire(self) -> bool
        ensures { result ≡ acquire_of self.0 }
    {
        self.0 >> 26 & 1 == 1
    }

    /// The bit rl of an atomic instruction.
    pub fn release(self) -> bool
        ensures { result ≡ release_of self.0 }
    {
        self.0 >> 25 & 1 == 1
    }

    /// The twelve bits in the places of rs2 and funct7.
    pub fn immediate(self) -> Imm12
        ensures { result ≡ rs2_of self.0 + funct7_of self.0 * 2 ^ 5 }
    {
        Imm12::new(self.0 >> 20)
    }

    /// The twelve bits in the places of rd and funct7.
    pub fn store_offset(self) -> Imm12
        ensures { result ≡ rd_of self.0 + funct7_of self.0 * 2 ^ 5 }
    {
        let low = self.0 >> 7 & 0x1F;
        let high = self.0 >> 25;
        Imm12::new(high * 0x20 + low)
    }

    /// A branch's offset without its lowest bit.
    pub fn branch_offset(self) -> Imm12
        ensures { result ≡ branch_offset (rd_of self.0) (funct7_of self.0) }
    {
        let bit_11 = self.0 >> 31;
        let bit_10 = self.0 >> 7 & 1;
        let bits_9_to_4 = self.0 >> 25 & 0x3F;
        let bits_3_to_0 = self.0 >> 8 & 0xF;
        Imm12::new(bit_11 * 0x800 + bit_10 * 0x400 + bits_9_to_4 * 0x10 + bits_3_to_0)
    }

    /// The twenty bits above rd.
    pub fn upper(self) -> Imm20
        ensures { result ≡ upper_of self.0 }
    {
        Imm20::new(self.0 >> 12)
    }

    /// A jump's offset without its lowest bit.
    pub fn jump_offset(self) -> Imm20
        ensures { result ≡ jump_offset (upper_of self.0) }
    {
        let bit_19 = self.0 >> 31;
        let bits_18_to_11 = self.0 >> 12 & 0xFF;
        let bit_10 = self.0 >> 20 & 1;
        let bits_9_to_0 = self.0 >> 21 & 0x3FF;
        Imm20::new(bit_19 * 0x8_0000 + bits_18_to_11 * 0x800 + bit_10 * 0x400 + bits_9_to_0)
    }
}
