//! The smallest parts that a log is written by.
ghost use Rattle.std.specs.Prelude.{◌≡◌, min, ◌++◌, length, take, drop};
ghost use Rattle.spec_log.specs.Bytes.{u8 as one, u32 as four};

use crate::fixed::Fixed;
use std::marker::Model;

/// Fixed bytes and those that they count, seen as the bytes that are left of both.
#[derive(Drop)]
pub struct Unit<'a> {
    fixed: Fixed,
    taken: usize,
    counted: &'a [u8],
}

impl<'a> Model for Unit<'a> {
    ghost use Rattle.std.specs.Prelude.{ℕ, ◌≤◌, List, ◌++◌, length, drop};

    ghost Value = { List ℕ };

    ghost view = { λ unit. drop unit.taken unit.fixed ++ unit.counted.now };

    ghost invariant = { λ unit. unit.taken ≤ length unit.fixed };
}

impl<'a> Unit<'a> {
    pub fn new(fixed: Fixed, counted: &'a [u8]) -> Unit<'a>
        ensures { result ≡ fixed ++ counted.now }
    {
        Unit {
            fixed,
            taken: 0,
            counted,
        }
    }

    /// A single byte.
    pub fn byte(number: u8) -> Unit<'a>
        ensures { result ≡ one number }
    {
        let mut fixed = Fixed::new();
        fixed.put_u8(number);
        Unit::new(fixed, &[])
    }

    /// A number of four bytes.
    pub fn number(number: u32) -> Unit<'a>
        ensures { result ≡ four number }
    {
        let mut fixed = Fixed::new();
        fixed.put_u32(number);
        Unit::new(fixed, &[])
    }

    /// The fixed bytes that are left, and those after them.
    pub fn parts(&self) -> (&[u8], &'a [u8])
        ensures { self.now ≡ result.0.now ++ result.1.now }
    {
        (&self.fixed.as_slice()[self.taken..], self.counted)
    }

    /// Fills the room from its front with the next bytes, and says how many.
    pub fn give(&mut self, into: &mut [u8]) -> usize
        ensures count { result ≡ min (length into.old) (length self.old) }
        ensures bytes { into.new ≡ take result self.old ++ drop result into.old }
        ensures left { self.new ≡ drop result self.old }
    {
        let fixed = fill(&self.fixed.as_slice()[self.taken..], into);
        self.taken += fixed;
        let counted = fill(self.counted, &mut into[fixed..]);
        self.counted = &self.counted[counted..];
        fixed + counted
    }
}

/// Copies as many bytes as there are and as have room.
fn fill(from: &[u8], into: &mut [u8]) -> usize
    ensures count { result ≡ min (length into.old) (length from.now) }
    ensures bytes { into.new ≡ take result from.now ++ drop result into.old }
{
    let count = into.len().min(from.len());
    into[..count].copy_from_slice(&from[..count]);
    count
}
