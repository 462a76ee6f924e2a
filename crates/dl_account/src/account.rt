//! The account of a sphere: its commits, and its state if its replay did not diverge.
ghost use Rattle.std.specs.Prelude.{◌≡◌, ◌++◌, codes, flat_map, OnOk, IfOk};
ghost use Rattle.dl_account.specs.Account.{account_of, end_fields, final_lines};
ghost use Rattle.dl_account.specs.CommitLists.{commits_in};
ghost use Rattle.dl_account.specs.Lines.{line, spaced};
ghost use Rattle.dl_account.specs.States.{request_lines, state_lines};

use crate::commit_lists::CommitLists;
use crate::commits::{put_commits, room_for};
use crate::memory::put_memory;
use crate::replays::put_diverged;
use crate::text::Text;
use crate::threads::put_threads;
use dl_entry::{End, OutOfMemory, Request};
use dl_mem::Memory;
use dl_thread::Threads;
use std::alloc::Global;

/// The account of a sphere: each whole commit with its loads and outputs; if its replay did not diverge, the threads,
/// the outstanding DMA request and the rows of memory that are not all zero; and how it ended. The first of the commits has
/// the number `first` in the sphere's log.
pub fn account_text(
    alloc: Global,
    commits: CommitLists<'_>,
    threads: &Threads,
    request: &Option<Request>,
    memory: &Memory,
    end: &End,
    first: u32,
) -> Result<Vec<u8>, OutOfMemory>
    ensures { IfOk result (λ text.
        text.items ≡ account_of first (commits_in commits.entry) threads.now request.now memory.now end.now) }
{
    let mut text = Text::with_room(alloc, room_for(commits))?;
    put_commits(&mut text, first, commits)?;
    put_final(&mut text, threads, *request, memory, *end)?;
    put_end(&mut text, *end)?;
    Ok(text.into_bytes())
}

// The state at the end, if the sphere did not diverge.
fn put_final(
    text: &mut Text,
    threads: &Threads,
    request: Option<Request>,
    memory: &Memory,
    end: End,
) -> Result<(), OutOfMemory>
    ensures { OnOk result (text.new ≡ text.old ++ final_lines threads.now request memory.now end) }
{
    match end {
        End::Complete(_) | End::At(_) => put_state(text, threads, request, memory),
        End::Diverged(..) => Ok(()),
    }
}

fn put_state(
    text: &mut Text,
    threads: &Threads,
    request: Option<Request>,
    memory: &Memory,
) -> Result<(), OutOfMemory>
    ensures { OnOk result (text.new ≡ text.old ++ state_lines threads.now request memory.now) }
{
    put_threads(text, threads)?;
    put_request(text, request)?;
    put_memory(text, memory)
}

fn put_request(text: &mut Text, request: Option<Request>) -> Result<(), OutOfMemory>
    ensures { OnOk result (text.new ≡ text.old ++ request_lines request) }
{
    let Some(Request { buf, len }) = request else {
        return Ok(());
    };
    text.put(b"d")?;
    text.put_hex_word(buf)?;
    text.put_number(u64::from(len))?;
    text.put(b"\n")
}

fn put_end(text: &mut Text, end: End) -> Result<(), OutOfMemory>
    ensures { OnOk result (text.new ≡ text.old ++ line (codes "end") (end_fields end)) }
{
    text.put(b"end")?;
    put_end_fields(text, end)?;
    text.put(b"\n")
}

fn put_end_fields(text: &mut Text, end: End) -> Result<(), OutOfMemory>
    ensures { OnOk result (text.new ≡ text.old ++ flat_map spaced (end_fields end)) }
{
    match end {
        End::Complete(commits) => text.put_count(b"complete", commits),
        End::At(commits) => text.put_count(b"at", commits),
        End::Diverged(index, why) => put_diverged(text, index, why),
    }
}
