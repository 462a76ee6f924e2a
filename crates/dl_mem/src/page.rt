//! A page of a memory: 4,096 bytes, with a mark that says whether it was put to since the last snapshot.
ghost use Rattle.std.specs.Prelude.{◌≡◌, ◌+◌, ◌/◌, ◌%◌, ◌<◌, ◌≤◌, length, take, drop, IfOk, IfSome};
ghost use Rattle.spec_isa.specs.Words.{lay, read, with_byte};
ghost use Rattle.spec_isa.specs.Masks.{bytes_of, some_if};

use crate::shared::Shared;
use std::alloc::{AllocError, Global};
use std::marker::Model;

/// The size of a page.
pub(crate) const PAGE: usize = 4096;

/// The bytes as they are now, and as the last snapshot shows them.
#[derive(Debug, Drop)]
pub struct Page {
    bytes: [u8; PAGE],
    is_marked: bool,
    shared: Option<Shared>,
}

impl Model for Page {
    ghost use Rattle.std.specs.Prelude.{ℕ, List, ◌≡◌, false, Some};

    ghost Value = { List ℕ };

    ghost view = { λ p. p.bytes };

    // A page without a mark has the bytes that the last snapshot shows.
    ghost invariant = { λ p. p.is_marked ≡ false → p.shared ≡ Some p.bytes };
}

impl Page {
    /// A page that no snapshot shows.
    pub(crate) fn new(bytes: &[u8; PAGE]) -> Page
        ensures { result ≡ bytes.now }
    {
        Page {
            bytes: *bytes,
            is_marked: true,
            shared: None,
        }
    }

    /// A page with the bytes that a snapshot shows.
    pub(crate) fn from_shared(shared: Shared) -> Page
        ensures { result ≡ shared }
    {
        Page {
            bytes: *shared.bytes(),
            is_marked: false,
            shared: Some(shared),
        }
    }

    pub(crate) fn bytes(&self) -> &[u8; PAGE]
        ensures { result.now ≡ self.now }
    {
        &self.bytes
    }

    /// Copies the bytes from a place on, as many as the slice has room for.
    pub(crate) fn copy_to(&self, at: usize, into: &mut [u8])
        requires { at + length into.old ≤ 4096 }
        ensures { into.new ≡ take (length into.old) (drop at self.now) }
    {
        into.copy_from_slice(&self.bytes[at..at + into.len()]);
    }

    /// Writes those bytes of the value whose bits are set in the mask into the word at a place.
    pub(crate) fn put(&mut self, at: usize, mask: u8, value: u32)
        requires aligned { at % 4 ≡ 0 }
        requires inside { at + 4 ≤ 4096 }
        ensures { self.new ≡ lay self.old (bytes_of (at / 4) mask value) }
    {
        put_masked(&mut self.bytes, at, mask, value);
        self.is_marked = true;
    }

    /// The bytes for one more snapshot: those of the last one, or a copy if there is a mark.
    pub(crate) fn share(&self, alloc: Global) -> Result<Shared, AllocError>
        ensures { IfOk result (λ shared. shared ≡ self.now) }
    {
        match &self.shared {
            Some(shared) if !self.is_marked => shared.share(),
            _ => Shared::new(alloc, &self.bytes),
        }
    }

    /// One more owner of what a snapshot took, if there is a mark: this page will keep it.
    pub(crate) fn renewal(&self, shared: &Shared) -> Result<Option<Shared>, AllocError>
        requires { shared.now ≡ self.now }
        ensures { IfOk result (λ renewal. IfSome renewal (λ shared. shared ≡ self.now)) }
    {
        if self.is_marked {
            Ok(Some(shared.share()?))
        } else {
            Ok(None)
        }
    }

    /// Keeps what a snapshot has taken, and takes the mark away.
    pub(crate) fn keep(&mut self, renewal: Option<Shared>)
        requires { IfSome renewal (λ shared. shared ≡ self.old) }
        ensures { self.new ≡ self.old }
    {
        if renewal.is_some() {
            self.shared = renewal;
            self.is_marked = false;
        }
    }
}

/// The word at a place.
pub(crate) fn word_at(bytes: &[u8; PAGE], at: usize) -> u32
    requires aligned { at % 4 ≡ 0 }
    requires inside { at + 4 ≤ 4096 }
    ensures { result ≡ read bytes.now (at / 4) }
{
    u32::from_le_bytes([bytes[at], bytes[at + 1], bytes[at + 2], bytes[at + 3]])
}

// Lays the masked bytes of a value over the four from that place on.
pub(crate) fn put_masked(bytes: &mut [u8], at: usize, mask: u8, value: u32)
    requires aligned { at % 4 ≡ 0 }
    requires inside { at + 4 ≤ length bytes.old }
    ensures { bytes.new ≡ lay bytes.old (bytes_of (at / 4) mask value) }
{
    let [b0, b1, b2, b3] = value.to_le_bytes();
    put_if(bytes, at, mask % 2 == 1, b0);
    put_if(bytes, at + 1, mask / 2 % 2 == 1, b1);
    put_if(bytes, at + 2, mask / 4 % 2 == 1, b2);
    put_if(bytes, at + 3, mask / 8 % 2 == 1, b3);
}

fn put_if(bytes: &mut [u8], at: usize, is_put: bool, byte: u8)
    requires { at < length bytes.old }
    ensures { bytes.new ≡ with_byte bytes.old at (some_if is_put byte) }
{
    if is_put {
        bytes[at] = byte;
    }
}
