//! The interval of a log that a plan names, and where its replay begins.
ghost use Rattle.std.specs.Prelude.{◌≡◌, Some, None, IfOk};
ghost use Rattle.spec_play.specs.Intervals.{interval_of, IsWithin, IsWithinIf};
ghost use Rattle.spec_sphere.specs.sphere.Setups.{RoleSetup};
ghost use Rattle.dl_sphere.specs.Setups.{IsBegun, IsBegunIf, interval_in};
ghost use Rattle.dl_gather.specs.Intervals.{HasDivergedBefore, sphere_on};

use dl_elf::Image;
use dl_entry::{End, OutOfMemory, Why};
use dl_logfmt::Log;
use dl_serial::{WalkEnd, walk};
use dl_sphere::Begun;
use spec_play::Interval;
use std::alloc::Global;

/// The commits of a log of so many that a plan names: those from `from` on and up to `to`, or none if it names neither.
pub fn interval_of(from: Option<u32>, to: Option<u32>, count: u32) -> Option<Interval>
    ensures { result ≡ interval_of from to count }
{
    if from.is_none() && to.is_none() {
        return None;
    }
    Some(Interval {
        first: from.unwrap_or(0).min(count),
        last: to.unwrap_or(count).min(count),
    })
}

/// Where the replay of the interval begins, if there is one.
pub fn begun_of(
    alloc: Global,
    image: &Image,
    log: &Log,
    interval: Option<Interval>,
) -> Result<Option<Begun>, OutOfMemory>
    requires { IsWithinIf log.now.count interval }
    ensures interval { IfOk result (λ b. interval_in b ≡ interval) }
    ensures begun { (role : RoleSetup) → IfOk result (IsBegunIf (sphere_on image.now role)
        (record { log = log.now; interval = interval; strata = None })) }
{
    match interval {
        Some(interval) => Ok(Some(begin(alloc, image, log, interval)?)),
        None => Ok(None),
    }
}

// The log's play on the image is done up to the interval's first commit, or to where it diverges before that.
fn begin(alloc: Global, image: &Image, log: &Log, interval: Interval) -> Result<Begun, OutOfMemory>
    requires { IsWithin log.now.count interval }
    ensures interval { IfOk result (λ b. b.interval ≡ interval) }
    ensures begun { (role : RoleSetup) → IfOk result (IsBegun (sphere_on image.now role)
        (record { log = log.now; interval = Some interval; strata = None })) }
{
    let walked = walk(alloc, image, log, interval.first)?;
    Ok(Begun {
        interval,
        state: walked.state,
        diverged: diverged_before(walked.end, interval.first),
    })
}

// Why a walk that ended so has diverged before that commit, if it has.
fn diverged_before(end: WalkEnd, first: u32) -> Option<Why>
    ensures { HasDivergedBefore first end result }
{
    match end {
        WalkEnd::Ended(End::Diverged(at, why)) if at < first => Some(why),
        WalkEnd::Ended(_) | WalkEnd::Reached(_) => None,
    }
}
