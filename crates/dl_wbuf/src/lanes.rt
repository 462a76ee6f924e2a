//! The bytes of a word, picked by a mask: bit k stands for byte k, counted from the lowest.
ghost use Rattle.std.specs.Prelude.{◌≡◌, if◌then◌else◌};
ghost use Rattle.spec_isa.specs.Masks.{bytes_of, word_over};

// The mask of all four bytes.
const WHOLE: u8 = 0b1111;

/// The word below, except for the masked bytes, which are those of the value.
#[inline(always)]
pub(crate) fn laid_over(below: u32, mask: u8, value: u32) -> u32
    ensures { result ≡ word_over (bytes_of 0 mask value) below }
{
    if mask == WHOLE {
        return value;
    }
    let [below0, below1, below2, below3] = below.to_le_bytes();
    let [value0, value1, value2, value3] = value.to_le_bytes();
    u32::from_le_bytes([
        either(mask % 2 == 1, value0, below0),
        either(mask / 2 % 2 == 1, value1, below1),
        either(mask / 4 % 2 == 1, value2, below2),
        either(mask / 8 % 2 == 1, value3, below3),
    ])
}

fn either(is_stored: bool, stored: u8, below: u8) -> u8
    ensures { result ≡ (if is_stored then stored else below) }
{
    if is_stored { stored } else { below }
}
