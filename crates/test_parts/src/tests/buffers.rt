//! Words that collide, words that are stored again, and words that are taken out.
use dl_wbuf::{Buffer, Full, Stored};
use std::process::Abort;
use std::test::Fail;

/// A word, the mask of its bytes that are stored, and its value.
type Parts = (u32, u8, u32);

/// A call and its answer.
#[derive(Clone, Copy)]
enum Step {
    Put(Parts, Result<(), Full>),
    Drain(Option<Parts>),
    Clear,
    Nth(u32, Option<Parts>),
    Get(u32, Option<u8>),
    /// A word over what lies below it.
    Over(u32, u32, u32),
    HasRoom(u32, bool),
    Len(u32),
}

fn follow(rt: &impl Abort, buffer: &mut Buffer, steps: &[Step]) {
    for (i, step) in steps.iter().enumerate() {
        assert!(rt; is_answered(buffer, step), "step {i}");
    }
}

/// Whether the call has its answer.
fn is_answered(buffer: &mut Buffer, step: &Step) -> bool {
    match step {
        Step::Put(stored, answer) => is_put(buffer, stored, *answer),
        Step::Drain(first) => are_parts(buffer.drain_next(), first),
        Step::Clear => {
            buffer.clear();
            true
        }
        Step::Nth(i, stored) => are_parts(buffer.nth(*i), stored),
        Step::Get(byte, held) => buffer.get(*byte) == *held,
        Step::Over(word, below, seen) => buffer.over(*word, *below) == *seen,
        Step::HasRoom(word, room) => buffer.has_room(*word) == *room,
        Step::Len(count) => buffer.len() == *count,
    }
}

fn is_put(buffer: &mut Buffer, stored: &Parts, answer: Result<(), Full>) -> bool {
    let (word, mask, value) = *stored;
    word % 4 == 0 && buffer.put(word, mask, value) == answer
}

fn are_parts(stored: Option<Stored>, parts: &Option<Parts>) -> bool {
    match (stored, parts) {
        (Some(stored), Some(parts)) => (stored.word, stored.mask, stored.value) == *parts,
        (None, None) => true,
        _ => false,
    }
}

#[test]
fn merges_a_held_word_in_its_place(rt: HostRuntime) -> Result<(), Fail> {
    let mut buffer = Buffer::new(rt.alloc(), 2)?;
    follow(&rt, &mut buffer, MERGES);
    Ok(())
}

const MERGES: &[Step] = &[
    Step::Put((8, 0b0001, 0xFFFF_FF11), Ok(())),
    Step::Put((4, 0b1111, 0x0102_0304), Ok(())),
    Step::Put((8, 0b1111_0100, 0x4422_3300), Ok(())),
    Step::Put((12, 0b0001, 0x55), Err(Full)),
    Step::Put((4, 0b0010, 0x6600), Ok(())),
    Step::Nth(0, Some((8, 0b0101, 0x0022_0011))),
    Step::Nth(2, None),
    Step::Get(8, Some(0x11)),
    Step::Get(9, None),
    Step::Get(10, Some(0x22)),
    Step::Over(8, 0xAABB_CCDD, 0xAA22_CC11),
    Step::Over(12, 7, 7),
    Step::HasRoom(4, true),
    Step::HasRoom(12, false),
    Step::Drain(Some((8, 0b0101, 0x0022_0011))),
    Step::Get(5, Some(0x66)),
    Step::Clear,
    Step::Drain(None),
    Step::Len(0),
];

#[test]
fn tells_words_apart_that_collide(rt: HostRuntime) -> Result<(), Fail> {
    let mut buffer = Buffer::new(rt.alloc(), 4)?;
    follow(&rt, &mut buffer, COLLIDES);
    Ok(())
}

// With room for four words, the probes for numbers 0, 13, 34 and 47 begin at the same slot.
const COLLIDES: &[Step] = &[
    Step::Put((0, 0b1111, 1), Ok(())),
    Step::Put((52, 0b1111, 53), Ok(())),
    Step::Put((136, 0b1111, 137), Ok(())),
    Step::Drain(Some((0, 0b1111, 1))),
    Step::Over(0, 7, 7),
    Step::Over(52, 7, 53),
    Step::Over(136, 7, 137),
    Step::Over(188, 7, 7),
];

// More words come than the table has room for, so that it is filled anew, and more than once.
#[test]
fn finds_the_words_left_as_others_come(rt: HostRuntime) -> Result<(), Fail> {
    let mut buffer = Buffer::new(rt.alloc(), 2)?;
    follow(&rt, &mut buffer, &[Step::Put((0, 0b1111, 0), Ok(()))]);
    for n in 0..9 {
        let steps = [
            Step::Put((4 * n + 4, 0b1111, n + 1), Ok(())),
            Step::Drain(Some((4 * n, 0b1111, n))),
            Step::Over(4 * n, 99, 99),
            Step::Over(4 * n + 4, 99, n + 1),
        ];
        follow(&rt, &mut buffer, &steps);
    }
    Ok(())
}

#[test]
fn holds_as_many_words_as_it_may(rt: HostRuntime) -> Result<(), Fail> {
    let mut one = Buffer::new(rt.alloc(), 1)?;
    is_filled_twice(&rt, &mut one, 1);
    let mut most = Buffer::new(rt.alloc(), 4096)?;
    is_filled_twice(&rt, &mut most, 4096);
    Ok(())
}

fn is_filled_twice(rt: &impl Abort, buffer: &mut Buffer, capacity: u16) {
    let end = 4 * u32::from(capacity);
    for _ in 0..2 {
        for n in 0..capacity {
            let n = u32::from(n);
            follow(rt, buffer, &[Step::Put((4 * n, 0b1111, n), Ok(()))]);
        }
        for n in 0..capacity {
            let n = u32::from(n);
            follow(rt, buffer, &[Step::Over(4 * n, 99, n)]);
        }
        let steps = [
            Step::Put((end, 1, 1), Err(Full)),
            Step::Clear,
            Step::Len(0),
            Step::Over(0, 99, 99),
        ];
        follow(rt, buffer, &steps);
    }
}
