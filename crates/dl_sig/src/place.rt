//! Where a line is in each bank of a signature, whose size is a power of two from 64 to 2,048 bits.
ghost use Rattle.std.specs.Prelude.{◌≡◌, ◌<◌, true};
ghost use Rattle.spec_engine.specs.Signatures.{bank, is_size, low_place, high_place};

// The line modulo the bank's size, which is a power of two: so its lowest bits.
pub(crate) fn low(bits: u32, line: u32) -> u32
    requires { is_size bits ≡ true }
    ensures value { result ≡ low_place bits line }
    ensures within { result < bank bits }
{
    line & (bits / 2 - 1)
}

// The highest bits of a 32-bit product.
pub(crate) fn high(bits: u32, line: u32) -> u32
    requires { is_size bits ≡ true }
    ensures value { result ≡ high_place bits line }
    ensures within { result < bank bits }
{
    let product = line.wrapping_mul(2_654_435_761);
    (u64::from(product) * u64::from(bits / 2) >> 32) as u32
}
