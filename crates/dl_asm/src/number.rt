//! Numbers, decimal or hexadecimal, with an optional minus.
ghost use Rattle.std.specs.Prelude.{◌≡◌, ℕ, ◌*◌, ◌≤◌, ◌<◌, ◌-◌, ◌%◌, ◌^◌, if◌then◌else◌};
ghost use Rattle.std.specs.Char.{digit_value, is_ascii_digit, is_ascii_hexdigit};
ghost use Rattle.std.specs.List.{list_all};
ghost use Rattle.std.specs.Option.{option_map};
ghost use Rattle.std.specs.Str.Parse.{digits_value};
ghost use Rattle.dl_asm.specs.Numbers as numbers;
ghost use Rattle.dl_asm.specs.Numbers.{decimal_in, hexadecimal_in, magnitude_in, capped};

/// Further from 0 than any range reaches.
pub const FAR: u64 = 1 << 33;

/// A number by its sign and how far it is from 0.
#[derive(Clone, Copy)]
pub struct Number {
    pub negative: bool,
    pub magnitude: u64,
}

impl Number {
    ghost use Rattle.dl_asm.specs.Numbers.{number_in, number_capped};
    ghost use Rattle.dl_asm.specs.Values as values;

    /// The number that a text writes, if it writes one, cut off beyond the reach of every range.
    pub fn read(text: &[u8]) -> Option<Number>
        ensures { result ≡ option_map number_capped (number_in text.now) }
    {
        match text.strip_prefix(b"-".as_slice()) {
            Some(digits) => Some(Number {
                negative: true,
                magnitude: magnitude(digits)?,
            }),
            None => Some(Number {
                negative: false,
                magnitude: magnitude(text)?,
            }),
        }
    }

    /// The place of a word as a number: its address.
    pub fn address(words: u64) -> Number
        ensures { (place : ℕ) → words ≡ capped place → result ≡ number_capped (values.address_number (4 * place)) }
    {
        Number {
            negative: false,
            magnitude: words.saturating_mul(4).min(FAR),
        }
    }

    /// How far it is from one word to another.
    pub fn distance(from: u64, to: u64) -> Number
        requires { from ≤ 2 ^ 22 }
        ensures { (place : ℕ) → to ≡ capped place → result ≡ number_capped (values.distance_number (4 * from) (4 * place)) }
    {
        Number {
            negative: to < from,
            magnitude: to.abs_diff(from).saturating_mul(4).min(FAR),
        }
    }

    /// Whether it is at most `below` under 0, or at most `above` over it.
    pub fn within(self, below: u64, above: u64) -> bool
        ensures { result ≡ values.within below above self }
    {
        self.magnitude <= if self.negative { below } else { above }
    }

    /// Whether it is a multiple of 2.
    pub fn is_even(self) -> bool
        ensures { result ≡ values.even self }
    {
        self.magnitude % 2 == 0
    }

    /// Its bits in two's complement, below `modulus`, a power of 2 that it doesn't exceed.
    pub fn bits(self, modulus: u64) -> u32
        requires some { 0 < modulus }
        requires most { modulus ≤ 2 ^ 32 }
        requires fits { self.magnitude ≤ modulus }
        ensures value { result ≡ (if self.negative then modulus - self.magnitude else self.magnitude) % modulus }
        ensures below { result < modulus }
    {
        let bits = if self.negative {
            modulus - self.magnitude
        } else {
            self.magnitude
        };
        (bits % modulus) as u32
    }
}

fn magnitude(text: &[u8]) -> Option<u64>
    ensures { result ≡ option_map capped (magnitude_in text.now) }
{
    match text.strip_prefix(b"0x".as_slice()) {
        Some(digits) => hexadecimal(digits),
        None => decimal(text),
    }
}

fn hexadecimal(digits: &[u8]) -> Option<u64>
    ensures { result ≡ option_map capped (hexadecimal_in digits.now) }
{
    if is_hexadecimal(digits) {
        Some(value(16, digits))
    } else {
        None
    }
}

fn is_hexadecimal(digits: &[u8]) -> bool
    ensures { result ≡ numbers.is_hexadecimal digits.now }
{
    1 <= digits.len() && digits.len() <= 8 && are_hexadecimal(digits)
}

fn are_hexadecimal(digits: &[u8]) -> bool
    ensures { result ≡ list_all is_ascii_hexdigit digits.now }
{
    digits.iter().all(|digit| digit.is_ascii_hexdigit())
}

/// The number that decimal digits write, with no 0 before other digits.
pub fn decimal(digits: &[u8]) -> Option<u64>
    ensures { result ≡ option_map capped (decimal_in digits.now) }
{
    if is_decimal(digits) {
        Some(value(10, digits))
    } else {
        None
    }
}

fn is_decimal(digits: &[u8]) -> bool
    ensures { result ≡ numbers.is_decimal digits.now }
{
    let Some((first, rest)) = digits.split_first() else {
        return false;
    };
    are_decimal(digits) && (*first != b'0' || rest.is_empty())
}

fn are_decimal(digits: &[u8]) -> bool
    ensures { result ≡ list_all is_ascii_digit digits.now }
{
    digits.iter().all(|digit| digit.is_ascii_digit())
}

// The number that digits write.
fn value(radix: u64, digits: &[u8]) -> u64
    requires some { 1 ≤ radix }
    requires few { radix ≤ 16 }
    ensures { result ≡ capped (digits_value radix digits.now) }
{
    let mut number = 0u64;
    for byte in digits {
        number = (number * radix + digit(*byte)).min(FAR);
    }
    number
}

fn digit(byte: u8) -> u64
    ensures value { result ≡ digit_value byte }
    ensures below { result ≤ 36 }
{
    match char::from(byte).to_digit(36) {
        Some(digit) => u64::from(digit),
        None => 36,
    }
}
