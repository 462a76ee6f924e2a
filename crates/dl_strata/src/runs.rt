//! The runs of commits.
ghost use Rattle.std.specs.Prelude.{◌≡◌, ◌≤◌, length, IfOk};
ghost use Rattle.std.specs.List.{sum};
ghost use Rattle.spec_log.specs.Fields.{field, at_most, staged};
ghost use Rattle.spec_strata.specs.Bytes.{stratum_bytes};
ghost use Rattle.spec_strata.specs.Reading.{are_commits as may_follow, next_stratum, strata, stratum};
ghost use Rattle.spec_strata.specs.Strata.{commits_in as commits_of};
ghost use Rattle.dl_logfmt.specs.Answer.{Answers};
ghost use Rattle.dl_strata.specs.Answer.{Leaves};
ghost use Rattle.dl_strata.specs.Runs.{HasFewCounts};

use crate::sections::shape_of;
use dl_entry::Sequence;
use dl_logfmt::{
    FIELD, Fixed, LogError, Source, Unit, judge, read_raw, read_thread, read_u8, read_u32,
};
use spec_strata::{StrataDraft, Stratum};

/// The most commits of all strata together.
const MOST_COMMITS: u64 = 1 << 24;

/// Reads the number of strata, and the strata.
pub fn read_runs(
    draft: &mut StrataDraft,
    source: &Source<'_>,
    at: &mut usize,
) -> Result<(), LogError>
    ensures { Leaves (staged strata draft.old source.now.bytes.now at.old) result draft.new at.new }
{
    let count = read_u32(source.bytes, at)?;
    for _ in 0..count {
        read_run(draft, source, at)?;
    }
    Ok(())
}

/// Reads one stratum more.
fn read_run(draft: &mut StrataDraft, source: &Source<'_>, at: &mut usize) -> Result<(), LogError>
    ensures { Leaves (strata.one draft.old source.now.bytes.now at.old) result draft.new at.new }
{
    let start = *at;
    let stratum = read_stratum(draft, source, at)?;
    let commits = commits_in(&stratum);
    judge(are_commits(draft.commits, commits), FIELD, start)?;
    draft.strata.push(stratum)?;
    draft.commits += commits;
    Ok(())
}

/// The next stratum.
fn read_stratum(
    draft: &StrataDraft,
    source: &Source<'_>,
    at: &mut usize,
) -> Result<Stratum, LogError>
    ensures value { Answers (stratum draft.now.counted source.now.bytes.now at.old) result at.new }
    ensures few { IfOk result HasFewCounts }
{
    let bytes = source.bytes;
    match read_tag(bytes, at)? {
        0 => {
            let counts = read_raw(bytes, at, usize::from(draft.counted))?;
            Ok(Stratum::Chunks(Sequence::from_slice(source.alloc, counts)?))
        }
        1 => Ok(Stratum::Serial(read_thread(bytes, at, shape_of(draft))?)),
        _ => Ok(Stratum::Dma),
    }
}

/// Which kind of stratum comes.
fn read_tag(bytes: &[u8], at: &mut usize) -> Result<u8, LogError>
    ensures { Answers (field 1 (at_most 2) bytes.now at.old) result at.new }
{
    let start = *at;
    let tag = read_u8(bytes, at)?;
    judge(tag <= 2, FIELD, start)?;
    Ok(tag)
}

/// How many commits a stratum has.
fn commits_in(stratum: &Stratum) -> u32
    requires { HasFewCounts stratum.now }
    ensures { result ≡ commits_of stratum.now }
{
    match stratum {
        Stratum::Chunks(counts) => sum_of(counts.as_slice()),
        Stratum::Serial(_) | Stratum::Dma => 1,
    }
}

/// The sum of at most 255 counts.
pub fn sum_of(counts: &[u8]) -> u32
    requires { length counts.now ≤ 255 }
    ensures { result ≡ sum counts.now }
{
    let mut sum = 0;
    for count in counts {
        sum += u32::from(*count);
    }
    sum
}

/// Whether a stratum of so many commits may follow so many: it has some, and all of them are not too many.
fn are_commits(before: u32, more: u32) -> bool
    ensures { result ≡ may_follow before more }
{
    0 < more && u64::from(before) + u64::from(more) <= MOST_COMMITS
}

/// The bytes of a stratum.
pub fn stratum_unit(stratum: &Stratum) -> Unit<'_>
    ensures { result ≡ stratum_bytes stratum.now }
{
    let mut fixed = Fixed::new();
    match stratum {
        Stratum::Chunks(counts) => {
            fixed.put_u8(0);
            Unit::new(fixed, counts.as_slice())
        }
        Stratum::Serial(thread) => {
            fixed.put_u8(1);
            fixed.put_u8(*thread);
            Unit::new(fixed, &[])
        }
        Stratum::Dma => Unit::byte(2),
    }
}
