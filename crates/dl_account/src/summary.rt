//! The summary: the events, the commits of all spheres, and a line for each sphere.
ghost use Rattle.std.specs.Prelude.{◌≡◌, ◌++◌, OnOk, IfOk, flat_map, sum_by};
ghost use Rattle.dl_account.specs.Lines.{numbered, spaced};
ghost use Rattle.dl_account.specs.Summary.{commits_in, interval_fields, sphere_fields, sphere_line, summary_of};

use crate::replays::put_diverged;
use crate::text::Text;
use dl_entry::{Counts, End, OutOfMemory, SphereLine};
use std::alloc::Global;

/// The summary of a run: the number of events, that of the commits of all spheres, and a line for each sphere.
pub fn summary_text(
    alloc: Global,
    counts: &Counts,
    spheres: &[SphereLine],
) -> Result<Vec<u8>, OutOfMemory>
    ensures { IfOk result (λ text. text.items ≡ summary_of counts.now spheres.now) }
{
    let mut text = Text::new(alloc);
    put_summary(&mut text, counts, spheres)?;
    Ok(text.into_bytes())
}

pub(crate) fn put_summary(
    text: &mut Text,
    counts: &Counts,
    spheres: &[SphereLine],
) -> Result<(), OutOfMemory>
    ensures { OnOk result (text.new ≡ text.old ++ summary_of counts.now spheres.now) }
{
    text.put(b"events")?;
    text.put_number(counts.events)?;
    text.put(b"\ncommits")?;
    text.put_large_number(commits(spheres))?;
    text.put(b"\n")?;
    put_spheres(text, spheres)
}

// The whole commits of all spheres.
fn commits(spheres: &[SphereLine]) -> u128
    ensures { result ≡ sum_by commits_in spheres.now }
{
    spheres
        .iter()
        .map(|sphere| u128::from(commits_in(sphere)))
        .sum()
}

// The whole commits of a sphere.
fn commits_in(sphere: &SphereLine) -> u32
    ensures { result ≡ commits_in sphere.now }
{
    match *sphere {
        SphereLine::Record(commits)
        | SphereLine::Plain(commits)
        | SphereLine::Complete(commits)
        | SphereLine::Interval(commits, _) => commits,
        SphereLine::Diverged(index, _) => index,
    }
}

fn put_spheres(text: &mut Text, spheres: &[SphereLine]) -> Result<(), OutOfMemory>
    ensures { OnOk result (text.new ≡ text.old ++ numbered sphere_line 0 spheres.now) }
{
    for (number, sphere) in spheres.iter().enumerate() {
        put_sphere(text, number, *sphere)?;
    }
    Ok(())
}

// The line of a sphere.
fn put_sphere(text: &mut Text, number: usize, sphere: SphereLine) -> Result<(), OutOfMemory>
    ensures { OnOk result (text.new ≡ text.old ++ sphere_line number sphere) }
{
    text.put(b"s")?;
    text.put_number(number as u64)?;
    put_sphere_fields(text, sphere)?;
    text.put(b"\n")
}

// Its role and its commits, or where and why its replay diverged.
fn put_sphere_fields(text: &mut Text, sphere: SphereLine) -> Result<(), OutOfMemory>
    ensures { OnOk result (text.new ≡ text.old ++ flat_map spaced (sphere_fields sphere)) }
{
    match sphere {
        SphereLine::Record(commits) => text.put_count(b"record", commits),
        SphereLine::Plain(commits) => text.put_count(b"plain", commits),
        SphereLine::Complete(commits) => text.put_count(b"complete", commits),
        SphereLine::Diverged(index, why) => put_diverged(text, index, why),
        SphereLine::Interval(_, end) => put_interval(text, end),
    }
}

// How the replay of an interval ended.
fn put_interval(text: &mut Text, end: End) -> Result<(), OutOfMemory>
    ensures { OnOk result (text.new ≡ text.old ++ flat_map spaced (interval_fields end)) }
{
    match end {
        End::Complete(commits) | End::At(commits) => text.put_count(b"complete", commits),
        End::Diverged(index, why) => put_diverged(text, index, why),
    }
}
