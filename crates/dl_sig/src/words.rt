//! The words of two banks of the same size: eight lanes at a time, and a plain loop over the rest.
ghost use Rattle.std.specs.Prelude.{◌≡◌, ◌≤◌, ◌+◌, length};
ghost use Rattle.std.specs.Simd.Lanes.{chunk, put_chunk};
ghost use Rattle.spec_engine.specs.Signatures.{meets};
ghost use Rattle.dl_sig.specs.Banks.{of_words, with_places};
ghost use Rattle.dl_sig.specs.Words.{share, joined};

use std::simd::prelude::*;

// Whether both banks have some place set.
pub(crate) fn share(left: &[u32], right: &[u32]) -> bool
    requires { length right.now ≡ length left.now }
    ensures { result ≡ meets (of_words left.now).set (of_words right.now).set }
{
    let whole = left.len() / 8;
    for k in 0..whole {
        if share_lanes(left, right, 8 * k) {
            return true;
        }
    }
    for i in 8 * whole..left.len() {
        if left[i] & right[i] != 0 {
            return true;
        }
    }
    false
}

// Whether both have the same bit set in the eight words from `start` on.
fn share_lanes(left: &[u32], right: &[u32], start: usize) -> bool
    requires in_left { start + 8 ≤ length left.now }
    requires in_right { start + 8 ≤ length right.now }
    ensures { result ≡ share (chunk start 8 left.now) (chunk start 8 right.now) }
{
    let both = u32x8::from_slice(&left[start..]) & u32x8::from_slice(&right[start..]);
    both.reduce_or() != 0
}

// Sets the other bank's places too.
pub(crate) fn join(words: &mut [u32], others: &[u32])
    requires { length others.now ≡ length words.old }
    ensures { of_words words.new ≡ with_places (of_words others.now) (of_words words.old) }
{
    let whole = words.len() / 8;
    for k in 0..whole {
        join_lanes(words, others, 8 * k);
    }
    for i in 8 * whole..words.len() {
        words[i] |= others[i];
    }
}

// The same for the eight words from `start` on.
fn join_lanes(words: &mut [u32], others: &[u32], start: usize)
    requires in_words { start + 8 ≤ length words.old }
    requires in_others { start + 8 ≤ length others.now }
    ensures { words.new ≡ put_chunk start words.old (joined (chunk start 8 words.old) (chunk start 8 others.now)) }
{
    let either = u32x8::from_slice(&words[start..]) | u32x8::from_slice(&others[start..]);
    either.copy_to_slice(&mut words[start..]);
}
