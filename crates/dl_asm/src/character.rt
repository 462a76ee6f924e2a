//! The characters of a source.
ghost use Rattle.std.specs.Prelude.{◌≡◌};
ghost use Rattle.dl_asm.specs.Characters as characters;

/// Space and tab.
pub fn is_blank(byte: u8) -> bool
    ensures { result ≡ characters.is_blank byte }
{
    byte == b' ' || byte == b'\t'
}

/// Whether a line may contain it.
pub fn is_printable(byte: u8) -> bool
    ensures { result ≡ characters.is_printable byte }
{
    byte.is_ascii_graphic() || is_blank(byte)
}

/// A letter or `_`.
pub fn begins_name(byte: u8) -> bool
    ensures { result ≡ characters.begins_name byte }
{
    byte.is_ascii_alphabetic() || byte == b'_'
}

/// A letter, a digit or `_`.
pub fn continues_name(byte: u8) -> bool
    ensures { result ≡ characters.continues_name byte }
{
    byte.is_ascii_alphanumeric() || byte == b'_'
}

/// A letter, `_` or a dot.
pub fn begins_mnemonic(byte: u8) -> bool
    ensures { result ≡ characters.begins_mnemonic byte }
{
    begins_name(byte) || byte == b'.'
}

/// A letter, a digit, `_` or a dot.
pub fn continues_mnemonic(byte: u8) -> bool
    ensures { result ≡ characters.continues_mnemonic byte }
{
    continues_name(byte) || byte == b'.'
}
