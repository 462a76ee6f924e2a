//! Lists of commits, by thread.
ghost use Rattle.std.specs.Prelude.{◌≡◌, ℕ, ◌+◌, ◌≤◌, [], ◌∷◌, ◌++◌, length, map, take, insert, set, slice_index_or, IsOk, IsTrue, OnOk};
ghost use Rattle.std.specs.Prelude.{vec_len, vec_capacity};
ghost use Rattle.dl_kernel.specs.InOrder.{has_room, joined, rooms_of};

use dl_entry::{Commit, OutOfMemory};
use std::alloc::Global;

// Puts a commit at the end of a thread's list.
pub(crate) fn push_to(lists: &mut [Vec<Commit>], thread: u8, commit: Commit)
    requires { IsTrue (has_room (rooms_of lists.old) thread) }
    ensures { let old = map (λ list. list.items) lists.old in
        map (λ list. list.items) lists.new ≡ set old thread (slice_index_or old thread [] ++ commit ∷ []) }
{
    lists[usize::from(thread)].push_reserved(commit);
}

// Makes room for one more commit in a thread's list, and makes the list if there is none yet.
pub(crate) fn reserve_list(
    alloc: Global,
    lists: &mut Vec<Vec<Commit>>,
    thread: u8,
) -> Result<(), OutOfMemory>
    ensures same { (n : ℕ) → joined (take n (map (λ list. list.items) lists.new.items)) ≡ joined (take n (map (λ list. list.items) lists.old.items)) }
    ensures all { joined (map (λ list. list.items) lists.new.items) ≡ joined (map (λ list. list.items) lists.old.items) }
    ensures room { OnOk result (IsTrue (has_room (rooms_of lists.new.items) thread)) }
{
    let thread = usize::from(thread);
    if is_roomy(lists, thread) {
        return Ok(());
    }
    for _ in lists.len()..thread + 1 {
        lists.push(Vec::new(alloc))?;
    }
    lists[thread].reserve(1)?;
    Ok(())
}

// Whether there is such a list, with room for one more commit.
fn is_roomy(lists: &[Vec<Commit>], thread: usize) -> bool
    ensures { result ≡ has_room (rooms_of lists.now) thread }
{
    match lists.get(thread) {
        Some(list) => list.len() < list.capacity(),
        None => false,
    }
}

// Moves all commits to the end of others, which have room for them. The lists keep their memory.
pub(crate) fn move_all(whole: &mut Vec<Commit>, lists: &mut [Vec<Commit>])
    requires { vec_len whole.old + length (joined (map (λ list. list.items) lists.old)) ≤ vec_capacity whole.old }
    ensures whole { whole.new.items ≡ whole.old.items ++ joined (map (λ list. list.items) lists.old) }
    ensures lists { joined (map (λ list. list.items) lists.new) ≡ [] }
    ensures capacity { vec_capacity whole.old ≤ vec_capacity whole.new }
{
    for thread in 0..lists.len() {
        move_of_one(whole, &mut lists[thread]);
    }
}

// The same of one list.
fn move_of_one(whole: &mut Vec<Commit>, list: &mut Vec<Commit>)
    requires { vec_len whole.old + length list.old.items ≤ vec_capacity whole.old }
    ensures whole { whole.new.items ≡ whole.old.items ++ list.old.items }
    ensures list { list.new.items ≡ [] }
    ensures capacity { vec_capacity whole.old ≤ vec_capacity whole.new }
{
    if !list.is_empty() {
        let _ = whole.append(list);
    }
}
