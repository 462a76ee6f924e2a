//! The stores of a walk, noted commit by commit.
ghost use Rattle.std.specs.Prelude.{◌≡◌, ◌≤◌, ◌+◌, ◌*◌, ◌++◌, length, OnOk};
ghost use Rattle.spec_isa.specs.Words.{lay, IsBytes};
ghost use Rattle.spec_isa.specs.Inside.{AreInside};
ghost use Rattle.spec_query.specs.Stores.{store_of, stores_of};

use dl_entry::{Actor, OutOfMemory};
use dl_mem::Memory;
use dl_wbuf::{Buffer, Stored};
use spec_query::Store;

/// A commit by its number in the log, and its actor.
#[derive(Clone, Copy)]
pub struct Storer {
    pub commit: u32,
    pub actor: Actor,
}

/// Notes the words of a commit, which lie over the memory still.
pub fn note_stores(
    stores: &mut Vec<Store>,
    by: Storer,
    words: &Buffer,
    memory: &Memory,
) -> Result<(), OutOfMemory>
    requires { AreInside (length memory.now) words.now.words }
    ensures { let noted = stores_of by.commit by.actor memory.now words.now.words in
        OnOk result (stores.new.items ≡ stores.old.items ++ noted) }
{
    for &stored in words.iter() {
        stores.push(store_of(by, stored, memory))?;
    }
    Ok(())
}

// The store of a word, with its value once the word is laid. Words that are laid elsewhere don't change it.
fn store_of(by: Storer, stored: Stored, memory: &Memory) -> Store
    requires { 4 * stored.number + 4 ≤ length memory.now }
    ensures store { result ≡ store_of by.commit by.actor (lay memory.now stored) stored }
    ensures bytes { IsBytes memory.now }
{
    Store {
        commit: by.commit,
        actor: by.actor,
        address: stored.word,
        value: stored.over(memory.word(stored.word)),
    }
}
