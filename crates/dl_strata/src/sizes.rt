//! The sizes of short chunks that strata keep.
ghost use Rattle.std.specs.Prelude.{◌≡◌, ◌≤◌, ◌++◌, ◌^◌, length, IfOk, OnOk};
ghost use Rattle.std.specs.List.{flat_map, range_with_len};
ghost use Rattle.spec_strata.specs.Making.{chunk_sizes, sizes_made};

use dl_entry::{Actor, Commit, CommitKind, OutOfMemory, Sequence};
use spec_log::{ShortSize, Sizes};
use std::alloc::Global;

/// The sizes of short chunks stay. If each commit has a size in the log, each chunk gets its own.
pub fn sizes_of(
    alloc: Global,
    sizes: &Sizes,
    commits: &[Commit],
    counted: u8,
) -> Result<Sequence<ShortSize>, OutOfMemory>
    requires { length commits.now ≤ 2 ^ 24 }
    ensures { IfOk result (λ made. made ≡ sizes_made counted commits.now sizes.now) }
{
    match sizes {
        Sizes::Each(_) => sizes_by_thread(alloc, commits, counted),
        Sizes::Short(sizes) => Sequence::from_slice(alloc, sizes.as_slice()),
    }
}

// The sizes of all chunks, thread by thread.
fn sizes_by_thread(
    alloc: Global,
    commits: &[Commit],
    counted: u8,
) -> Result<Sequence<ShortSize>, OutOfMemory>
    requires { length commits.now ≤ 2 ^ 24 }
    ensures { IfOk result (λ sizes. sizes
        ≡ flat_map (λ k. chunk_sizes k 0 commits.now) (range_with_len 0 counted)) }
{
    let mut sizes = Sequence::new(alloc);
    for thread in 0..counted {
        put_sizes(&mut sizes, thread, commits)?;
    }
    Ok(sizes)
}

// Puts the sizes of a thread's chunks after others.
fn put_sizes(
    sizes: &mut Sequence<ShortSize>,
    thread: u8,
    commits: &[Commit],
) -> Result<(), OutOfMemory>
    requires { length commits.now ≤ 2 ^ 24 }
    ensures { OnOk result (sizes.new ≡ sizes.old ++ chunk_sizes thread 0 commits.now) }
{
    let mut index = 0;
    for commit in commits {
        if commit.actor == Actor::Thread(thread) {
            if commit.kind == CommitKind::Chunk {
                let size = commit.size;
                sizes.push(ShortSize {
                    thread,
                    index,
                    size,
                })?;
            }
            index += 1;
        }
    }
    Ok(())
}
