//! Single lines that hit and that don't, and two lines joined, in both kinds of signature.
ghost use Rattle.std.specs.Prelude.{◌≡◌, true};
ghost use Rattle.spec_engine.specs.Signatures.{is_size};

use dl_sig::{Banked, PlainSet, Sig};
use std::alloc::{AllocError, Global};
use std::process::Abort;
use std::test::Fail;

#[derive(Clone, Copy, PartialEq, Eq)]
struct Seen {
    hits: bool,
    covers: bool,
    hits_once_cleared: bool,
}

const HIT: Seen = Seen {
    hits: true,
    covers: true,
    hits_once_cleared: false,
};

const MISS: Seen = Seen {
    hits: false,
    covers: false,
    hits_once_cleared: false,
};

// What a signature of one line shows about another line.
fn compared<G: Sig>(alloc: Global, bits: u32, marked: u32, line: u32) -> Result<Seen, AllocError>
    requires { is_size bits ≡ true }
{
    let mut signature = G::empty(alloc, bits)?;
    let mut other = G::empty(alloc, bits)?;
    signature.insert(marked);
    other.insert(line);
    let hits = signature.hits(&other);
    let covers = signature.covers(line);
    signature.clear();
    Ok(Seen {
        hits,
        covers,
        hits_once_cleared: signature.hits(&other),
    })
}

// Whether a signature of one line, once joined with a signature of another, covers both lines.
fn covers_both<G: Sig>(alloc: Global, bits: u32, marked: u32, line: u32) -> Result<bool, AllocError>
    requires { is_size bits ≡ true }
{
    let mut signature = G::empty(alloc, bits)?;
    let mut other = G::empty(alloc, bits)?;
    signature.insert(marked);
    other.insert(line);
    signature.join(&other);
    Ok(signature.covers(marked) && signature.covers(line))
}

/// The smallest size of a signature and the largest.
#[derive(Clone, Copy)]
enum Size {
    Least,
    Greatest,
}

fn bits(size: Size) -> u32
    ensures { is_size result ≡ true }
{
    match size {
        Size::Least => 64,
        Size::Greatest => 2048,
    }
}

/// A size, the line that is marked, another line, and what is seen of it.
const COMPARED: &[(Size, u32, u32, Seen)] = &[
    // both set the same bits; one word to a bank
    (Size::Least, 8, 296, HIT),
    // they share a bit in the first bank only
    (Size::Least, 0, 32, MISS),
    (Size::Least, 0, 1, MISS),
    // the last bit of the first bank
    (Size::Greatest, 1023, 1023, HIT),
    // in both banks a bit of the last word of the last eight
    (Size::Greatest, 3071, 502783, HIT),
    (Size::Greatest, 8, 296, MISS),
];

fn are_as_compared<G: Sig>(rt: &impl Abort, alloc: Global) -> Result<(), Fail> {
    for (size, marked, line, seen) in COMPARED {
        assert!(rt; compared::<G>(alloc, bits(*size), *marked, *line)? == *seen);
    }
    Ok(())
}

#[test]
fn words_of_bits_hit_where_both_banks_share_a_bit(rt: HostRuntime) -> Result<(), Fail> {
    are_as_compared::<Banked>(&rt, rt.alloc())
}

#[test]
fn flags_hit_where_both_banks_share_a_bit(rt: HostRuntime) -> Result<(), Fail> {
    are_as_compared::<PlainSet>(&rt, rt.alloc())
}

const JOINED: &[(Size, u32, u32)] = &[(Size::Least, 0, 1), (Size::Greatest, 8, 502783)];

#[test]
fn a_union_covers_the_lines_of_both(rt: HostRuntime) -> Result<(), Fail> {
    for (size, marked, line) in JOINED {
        assert!(rt; covers_both::<Banked>(rt.alloc(), bits(*size), *marked, *line)?);
        assert!(rt; covers_both::<PlainSet>(rt.alloc(), bits(*size), *marked, *line)?);
    }
    Ok(())
}
