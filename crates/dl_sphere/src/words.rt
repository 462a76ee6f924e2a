//! The words of a commit, copied to fly.
ghost use Rattle.std.specs.Prelude.{◌≡◌, true, IfOk};
ghost use Rattle.spec_isa.specs.Words.{put};
ghost use Rattle.dl_wbuf.specs.Buffers.{has_room};

use dl_entry::OutOfMemory;
use dl_wbuf::{Buffer, Stored};
use std::alloc::Global;

// A buffer of the same words.
#[tactic(auto, using(crate::proofs::Lists::Words::has_room_taken, crate::proofs::Lists::Words::put_taken))]
pub(crate) fn copied(alloc: Global, words: &Buffer) -> Result<Buffer, OutOfMemory>
    ensures { IfOk result (λ copy. copy.words ≡ words.now.words) }
{
    let count = words.len();
    let mut copy = Buffer::new(alloc, count.max(1))?;
    for i in 0..count {
        let Some(stored) = words.nth(i) else {
            unreachable!();
        };
        put(&mut copy, stored);
    }
    Ok(copy)
}

// Stores a word for which there is room.
fn put(words: &mut Buffer, stored: Stored)
    requires { has_room words.old stored.number ≡ true }
    ensures words { words.new.words ≡ put words.old.words stored }
    ensures capacity { words.new.capacity ≡ words.old.capacity }
{
    match words.put(stored.word, stored.mask, stored.value) {
        Ok(()) => {}
        Err(_) => unreachable!(),
    }
}
