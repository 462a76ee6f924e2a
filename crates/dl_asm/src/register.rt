//! Registers, by their names.
ghost use Rattle.std.specs.Prelude.{◌≡◌};
ghost use Rattle.dl_asm.specs.Numbers.{register_in};

use crate::number::decimal;
use spec_isa::field::Reg;

/// The register that a text names, if it names one.
pub fn read_register(text: &[u8]) -> Option<Reg>
    ensures { result ≡ register_in text.now }
{
    let number = decimal(text.strip_prefix(b"x".as_slice())?)?;
    if number <= 31 {
        Some(Reg::new(number as u32))
    } else {
        None
    }
}
