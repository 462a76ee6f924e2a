//! A word of an image.
ghost use Rattle.std.specs.Prelude.{◌≡◌, ◌/◌, slice_index};
ghost use Rattle.spec_isa.specs.Words.{read};

use dl_elf::Image;

/// The word that holds the byte at that address; bytes past the end of the image are 0.
#[tactic(auto, unfolding(spec_isa::specs::Words::read))]
pub fn word_of(image: &Image, addr: u32) -> u32
    ensures { result ≡ read image.now.bytes (addr / 4) }
{
    let bytes = image.bytes();
    let start = (addr / 4 * 4) as usize;
    u32::from_le_bytes([
        byte_at(bytes, start),
        byte_at(bytes, start + 1),
        byte_at(bytes, start + 2),
        byte_at(bytes, start + 3),
    ])
}

fn byte_at(bytes: &[u8], index: usize) -> u8
    ensures { result ≡ slice_index bytes.now index }
{
    match bytes.get(index) {
        Some(byte) => *byte,
        None => 0,
    }
}
