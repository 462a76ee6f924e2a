//! Random bytes.
ghost use Rattle.std.specs.Prelude.{◌≡◌, length};
ghost use Rattle.spec_kernel.specs.Devices.{random_bytes, random_after};

use rand_core::utils::NextWord;
use rand_pcg::Lcg64Xsh32;

// Fills a buffer: each byte is the low byte of one word.
pub(crate) fn fill(words: &mut Lcg64Xsh32, into: &mut [u8])
    ensures bytes { into.new ≡ random_bytes (length into.old) words.old }
    ensures stream { words.new.increment ≡ words.old.increment }
    ensures moved { words.new ≡ random_after (length into.old) words.old }
{
    for i in 0..into.len() {
        into[i] = (words.next_word() % 256) as u8;
    }
}
