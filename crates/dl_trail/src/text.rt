//! The text of a slice.
ghost use Rattle.std.specs.Prelude.{◌≡◌, drop, IfOk};
ghost use Rattle.spec_interval.specs.Slices.{slice_end, slice_of};
ghost use Rattle.dl_serial.specs.Walked.{walked_in};
ghost use Rattle.dl_trail.specs.Trails.{slice_in};

use dl_account::{CommitLists, account_text};
use dl_entry::{Commit, End, OutOfMemory};
use dl_serial::Walked;
use spec_play::WalkEnd;
use std::alloc::Global;

/// A slice as a text, and how it ended.
#[derive(Drop)]
pub struct Text {
    pub bytes: Vec<u8>,
    pub end: End,
}

/// The slice that a walk leaves without so many of its first commits. The first of the others has number `i` in the log.
pub(crate) fn text_of(
    alloc: Global,
    walked: &Walked,
    skipped: u32,
    i: u32,
) -> Result<Text, OutOfMemory>
    ensures { let w = walked.now in
        IfOk result (λ text. slice_in text ≡ slice_of i (drop skipped w.commits) (walked_in w)) }
{
    let state = &walked.state;
    let end = slice_end(walked.end);
    let bytes = account_text(
        alloc,
        CommitLists::of(without(walked.commits.as_slice(), skipped)),
        &state.threads,
        &state.request,
        &state.memory,
        &end,
        i,
    )?;
    Ok(Text { bytes, end })
}

// All but so many of the first.
fn without(commits: &[Commit], skipped: u32) -> &[Commit]
    ensures { result.now ≡ drop skipped commits.now }
{
    &commits[(skipped as usize).min(commits.len())..]
}

fn slice_end(end: WalkEnd) -> End
    ensures { result ≡ slice_end end }
{
    match end {
        WalkEnd::Reached(commits)
        | WalkEnd::Ended(End::Complete(commits))
        | WalkEnd::Ended(End::At(commits)) => End::At(commits),
        WalkEnd::Ended(End::Diverged(index, why)) => End::Diverged(index, why),
    }
}
