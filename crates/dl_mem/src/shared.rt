//! The bytes of a page that snapshots share.
ghost use Rattle.std.specs.Prelude.{◌≡◌, ◌+◌, ◌/◌, ◌%◌, ◌≤◌, IfOk};
ghost use Rattle.spec_isa.specs.Words.{lay};
ghost use Rattle.spec_isa.specs.Masks.{bytes_of};

use crate::page::{PAGE, put_masked};
use std::alloc::{AllocError, Global};
use std::marker::Model;
use std::rc::Rc;

/// The bytes of a page at one moment, with as many owners as there are snapshots that show them.
#[derive(Debug, Drop)]
pub struct Shared {
    bytes: Rc<[u8; PAGE]>,
}

impl Model for Shared {
    ghost use Rattle.std.specs.Prelude.{ℕ, List};

    ghost Value = { List ℕ };

    ghost view = { λ s. s.bytes.value };
}

impl Shared {
    /// A copy of these bytes.
    pub(crate) fn new(alloc: Global, bytes: &[u8; PAGE]) -> Result<Shared, AllocError>
        ensures { IfOk result (λ shared. shared ≡ bytes.now) }
    {
        Ok(Shared {
            bytes: Rc::new(alloc, *bytes)?,
        })
    }

    /// One more owner of the same bytes.
    pub(crate) fn share(&self) -> Result<Shared, AllocError>
        ensures { IfOk result (λ shared. shared ≡ self.now) }
    {
        Ok(Shared {
            bytes: self.bytes.clone()?,
        })
    }

    pub(crate) fn bytes(&self) -> &[u8; PAGE]
        ensures { result.now ≡ self.now }
    {
        &self.bytes
    }

    /// A copy of these bytes in which those bytes of the value whose bits are set in the mask are written into the word at a
    /// place.
    pub(crate) fn with_word(
        &self,
        alloc: Global,
        at: usize,
        mask: u8,
        value: u32,
    ) -> Result<Shared, AllocError>
        requires aligned { at % 4 ≡ 0 }
        requires inside { at + 4 ≤ 4096 }
        ensures { IfOk result (λ shared. shared ≡ lay self.now (bytes_of (at / 4) mask value)) }
    {
        Shared::new(alloc, &with_word(self.bytes(), at, mask, value))
    }
}

fn with_word(bytes: &[u8; PAGE], at: usize, mask: u8, value: u32) -> [u8; PAGE]
    requires aligned { at % 4 ≡ 0 }
    requires inside { at + 4 ≤ 4096 }
    ensures { result ≡ lay bytes.now (bytes_of (at / 4) mask value) }
{
    let mut written = *bytes;
    put_masked(&mut written, at, mask, value);
    written
}
