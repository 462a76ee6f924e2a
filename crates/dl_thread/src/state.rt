//! A thread: a pc, registers, a reservation, an interrupt handler with what it saved, a status and a number of commits.
ghost use Rattle.std.specs.Prelude.{◌≡◌, ◌%◌};
ghost use Rattle.spec_isa.specs.Operations.{at_pc, following, register, reserves};
ghost use Rattle.spec_isa.specs.Threads.{IsThread, started};

use spec_isa::field::Reg;
use spec_isa::thread::{Parts, ThreadStatus};
use std::marker::Model;

/// A thread. Its pc, saved pc and handler are multiples of 4, and its register 0 is 0.
#[derive(Clone, Copy, Debug, PartialEq, Eq)]
pub struct Thread {
    parts: Parts,
}

impl Model for Thread {
    ghost use Rattle.spec_isa.specs.declared.thread.Parts.{Parts};
    ghost use Rattle.spec_isa.specs.Threads.{IsThread};

    ghost Value = { Parts };

    ghost view = { λ t. t.parts };

    ghost invariant = { λ t. IsThread t.parts };

    ghost inverse = { λ p. record { parts = p } };
}

impl Thread {
    /// A thread at `entry`, whose registers are 0.
    pub fn started(entry: u32) -> Self
        requires { entry % 4 ≡ 0 }
        ensures { result ≡ started entry }
    {
        Thread {
            parts: Parts {
                pc: entry,
                x: [0; 32],
                reservation: None,
                handler: 0,
                mask: false,
                saved_pc: 0,
                saved_a0: 0,
                saved_a1: 0,
                status: ThreadStatus::Live,
                commits: 0,
            },
        }
    }

    /// The thread of these parts.
    pub fn from_parts(parts: &Parts) -> Self
        requires { IsThread parts.now }
        ensures { result ≡ parts.now }
    {
        Thread { parts: *parts }
    }

    /// Its parts.
    pub fn parts(&self) -> Parts
        ensures value { result ≡ self.now }
        ensures thread { IsThread result }
    {
        self.parts
    }

    /// Where its next instruction is, a multiple of 4.
    pub fn pc(&self) -> u32
        ensures value { result ≡ self.now.pc }
        ensures aligned { result % 4 ≡ 0 }
    {
        self.parts.pc
    }

    /// Its registers x0 to x31.
    pub fn x(&self) -> &[u32; 32]
        ensures { result.now ≡ self.now.x }
    {
        &self.parts.x
    }

    /// The address of the word that it has reserved.
    pub fn reservation(&self) -> Option<u32>
        ensures { result ≡ self.now.reservation }
    {
        self.parts.reservation
    }

    /// Where its interrupt handler is, or 0.
    pub fn handler(&self) -> u32
        ensures { result ≡ self.now.handler }
    {
        self.parts.handler
    }

    /// Whether interrupts are masked.
    pub fn mask(&self) -> bool
        ensures { result ≡ self.now.mask }
    {
        self.parts.mask
    }

    /// The pc that was saved at the last interrupt.
    pub fn saved_pc(&self) -> u32
        ensures { result ≡ self.now.saved_pc }
    {
        self.parts.saved_pc
    }

    /// The register a0 that was saved at the last interrupt.
    pub fn saved_a0(&self) -> u32
        ensures { result ≡ self.now.saved_a0 }
    {
        self.parts.saved_a0
    }

    /// The register a1 that was saved at the last interrupt.
    pub fn saved_a1(&self) -> u32
        ensures { result ≡ self.now.saved_a1 }
    {
        self.parts.saved_a1
    }

    /// Whether it is live, or how it stopped.
    pub fn status(&self) -> ThreadStatus
        ensures { result ≡ self.now.status }
    {
        self.parts.status
    }

    /// How many commits it has made.
    pub fn commits(&self) -> u32
        ensures { result ≡ self.now.commits }
    {
        self.parts.commits
    }

    // The value of a register.
    pub(crate) fn register(&self, r: Reg) -> u32
        ensures { result ≡ register self.now r }
    {
        self.parts.x[r.number() as usize]
    }

    // Where it goes on after an instruction that does not jump.
    pub(crate) fn following(&self) -> u32
        ensures value { result ≡ following self.now }
        ensures aligned { result % 4 ≡ 0 }
    {
        self.parts.pc.wrapping_add(4)
    }

    // Sets the pc and a register, except that x0 stays 0.
    pub(crate) fn go(&mut self, rd: Reg, value: u32, pc: u32)
        requires { pc % 4 ≡ 0 }
        ensures { self.new ≡ at_pc self.old rd value pc }
    {
        let n = rd.number();
        if n != 0 {
            self.parts.x[n as usize] = value;
        }
        self.parts.pc = pc;
    }

    // Whether it has reserved that word.
    pub(crate) fn reserves(&self, addr: u32) -> bool
        ensures { result ≡ reserves self.now.reservation addr }
    {
        match self.parts.reservation {
            Some(reserved) => reserved == addr,
            None => false,
        }
    }

    // Reserves a word, or none.
    pub(crate) fn reserve(&mut self, addr: Option<u32>)
        ensures { self.new ≡ record self.old { reservation = addr } }
    {
        self.parts.reservation = addr;
    }
}
