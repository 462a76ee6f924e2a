//! One word's store: which of its bytes are stored, and what they are.
use crate::lanes::laid_over;
use std::marker::Model;

/// The masked bytes of a value, stored in the word at an address. The address is a multiple of 4, the mask has four bits,
/// and the value's bytes outside the mask are 0.
#[derive(Clone, Copy, Debug, PartialEq, Eq)]
pub struct Stored {
    pub word: u32,
    pub mask: u8,
    pub value: u32,
}

impl Model for Stored {
    ghost use Rattle.std.specs.Prelude.{◌/◌, ◌*◌};
    ghost use Rattle.spec_isa.specs.Words.{Stored};
    ghost use Rattle.spec_isa.specs.Masks.{bytes_of, mask_of, word_over};
    ghost use Rattle.dl_wbuf.specs.Exact.{IsExact};

    ghost Value = { Stored };

    ghost view = { λ s. bytes_of (s.word / 4) s.mask s.value };

    ghost invariant = { λ s. IsExact s.word s.mask s.value };

    ghost inverse = { λ b. record { word = 4 * b.number; mask = mask_of b; value = word_over b 0 } };

    ghost use Rattle.std.specs.Prelude.{refl};

    ghost inverse_ok = { λ a h. Prim.rw (h.place, h.bits, h.whole) refl };
}

impl Stored {
    ghost use Rattle.std.specs.Prelude.{◌≡◌, ◌/◌, ◌%◌, ◌<◌};
    ghost use Rattle.spec_isa.specs.Words.{merged};
    ghost use Rattle.spec_isa.specs.Masks.{bytes_of, word_over};
    ghost use Rattle.dl_wbuf.specs.Buffers.{lane};

    /// A store of no byte.
    pub(crate) fn none(word: u32) -> Stored
        requires { word % 4 ≡ 0 }
        ensures { result ≡ bytes_of (word / 4) 0 0 }
    {
        Stored {
            word,
            mask: 0,
            value: 0,
        }
    }

    /// This store, and after it another to the same word.
    pub(crate) fn then(self, mask: u8, value: u32) -> Stored
        ensures { result ≡ merged self (bytes_of self.number mask value) }
    {
        Stored {
            word: self.word,
            mask: self.mask | mask % 16,
            value: laid_over(self.value, mask, value),
        }
    }

    /// The word below with this store over it.
    #[inline(always)]
    pub fn over(&self, below: u32) -> u32
        ensures { result ≡ word_over self.now below }
    {
        laid_over(below, self.mask, self.value)
    }

    /// Byte k of the word, if it is stored.
    pub(crate) fn byte(&self, k: u32) -> Option<u8>
        requires { k < 4 }
        ensures { result ≡ lane self.now k }
    {
        if self.mask >> k & 1 == 1 {
            Some(self.value.to_le_bytes()[k as usize])
        } else {
            None
        }
    }

    /// The number of the word, a quarter of its address.
    pub(crate) fn number(&self) -> u32
        ensures { result ≡ self.now.number }
    {
        self.word / 4
    }
}
