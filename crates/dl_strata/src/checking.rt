//! Strata checked on an image.
ghost use Rattle.std.specs.Prelude.{◌≡◌};
ghost use Rattle.dl_strata.specs.declared.checking.CheckError.TheVariants.{OutOfMemory as NoMemory};
ghost use Rattle.spec_strata.specs.Canonical.{canonical};
ghost use Rattle.dl_strata.specs.Checking.{AllFit, IsApart, IsChecked, IsFit};

use crate::canonical::canonical_log;
use crate::checker::Checker;
use crate::kinds::{first_other, kinds_in};
use dl_elf::Image;
use dl_entry::{End, OutOfMemory};
use dl_serial::walk;
use spec_log::Log;
use spec_play::WalkEnd;
use spec_strata::Strata;
use std::alloc::Global;
use thiserror::Error;

/// Why strata aren't parallel on an image.
#[derive(Clone, Copy, Debug, PartialEq, Eq, Error)]
pub enum CheckError {
    /// A commit conflicts with an earlier one of another thread in its stratum. No commit before it does, and all commits fit.
    #[error("commit {0} conflicts with another thread's in its stratum")]
    Conflict(u32),
    /// The play diverges at a commit, or the commit isn't of the kind that its stratum holds. All commits before it fit.
    #[error("commit {0} doesn't fit its stratum")]
    Unfit(u32),
    /// Memory ran out.
    #[error("out of memory")]
    OutOfMemory,
}

impl From<OutOfMemory> for CheckError {
    ghost from_gives = { λ _ error. error ≡ NoMemory };

    fn from(_: OutOfMemory) -> CheckError {
        CheckError::OutOfMemory
    }
}

/// Checks that strata are parallel on an image: their log fits it, each commit is of the kind that its stratum holds, and none
/// conflicts with an earlier one of another thread in its stratum. Whether all commits fit is checked first. The log is played
/// twice: to its end, and then with the footprints of its chunks.
pub fn check_strata(alloc: Global, image: &Image, v: &Strata) -> Result<(), CheckError>
    ensures { IsChecked v.now image.now.bytes image.now.entry result }
{
    let log = canonical_log(alloc, v)?;
    check_fit(alloc, image, v, &log)?;
    check_conflicts(alloc, image, v, &log)
}

// Checks that the play of the strata's log is complete, and that its commits are of the kinds that the strata hold.
fn check_fit(alloc: Global, image: &Image, v: &Strata, log: &Log) -> Result<(), CheckError>
    requires { log.now ≡ canonical v.now }
    ensures { IsFit v.now image.now.bytes image.now.entry result }
{
    let walked = walk(alloc, image, log, log.parts().count)?;
    let kinds = kinds_in(alloc, v.parts().strata.as_slice())?;
    if let Some(index) = first_other(walked.commits.as_slice(), kinds.as_slice()) {
        return Err(CheckError::Unfit(index));
    }
    let WalkEnd::Ended(end) = walked.end else {
        unreachable!();
    };
    match end {
        End::Complete(_) => Ok(()),
        End::Diverged(index, _) => Err(CheckError::Unfit(index)),
        End::At(_) => unreachable!(),
    }
}

// Checks that no commit conflicts, if all fit.
fn check_conflicts(alloc: Global, image: &Image, v: &Strata, log: &Log) -> Result<(), CheckError>
    requires log { log.now ≡ canonical v.now }
    requires fits { AllFit v.now image.now.bytes image.now.entry }
    ensures { IsApart v.now image.now.bytes image.now.entry result }
{
    let mut checker = Checker::new(alloc, image, log)?;
    let strata = v.parts().strata.as_slice();
    for stratum in strata {
        checker.check(stratum)?;
    }
    Ok(())
}
