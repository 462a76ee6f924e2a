//! Decoding and encoding are inverse to each other.
ghost use Rattle.std.specs.Prelude.{◌≡◌, ◌↔◌, IfSome, IsNone, Some};
ghost use Rattle.spec_isa.specs.Denoted.{denoted};

use crate::decoding::decode;
use crate::encoding::encode;
use spec_isa::instr::Instr;

/// The word itself, decoded and encoded again; none if it is outside the table.
pub fn respelled(w: u32) -> Option<u32>
    ensures same { IfSome result (λ v. v ≡ w) }
    ensures outside { IsNone result ↔ IsNone (denoted w) }
{
    let i = decode(w)?;
    Some(encode(&i))
}

/// The instruction itself, encoded and decoded again.
pub fn redecoded(i: &Instr) -> Option<Instr>
    ensures { result ≡ Some i.now }
{
    decode(encode(i))
}
