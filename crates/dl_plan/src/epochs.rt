//! Whether the spheres of a plan are recorded in epochs only where they may be.
ghost use Rattle.std.specs.Prelude.{◌≡◌, map};
ghost use Rattle.std.specs.List.{list_all};
ghost use Rattle.dl_plan.specs.Roles.{are_epochs, has_good_epochs, is_second};
ghost use Rattle.dl_plan.specs.Views.{entry_view};

use crate::sizes::version_of;
use crate::sphere::{RoleName, SphereEntries};

/// Whether each sphere with `epoch` or `keep` has both, and is recorded into a log of version 2.
pub(crate) fn have_good_epochs(spheres: &[SphereEntries<'_>]) -> bool
    ensures { result ≡ list_all has_good_epochs (map entry_view spheres.now) }
{
    spheres.iter().all(|sphere| has_good_epochs(sphere))
}

fn has_good_epochs(sphere: &SphereEntries<'_>) -> bool
    ensures { result ≡ has_good_epochs (entry_view sphere.now) }
{
    match sphere.role {
        RoleName::Plain | RoleName::Replay => sphere.epoch.is_none() && sphere.keep.is_none(),
        RoleName::Record => are_epochs(sphere.version, sphere.epoch, sphere.keep),
    }
}

fn are_epochs(version: Option<i64>, epoch: Option<i64>, keep: Option<i64>) -> bool
    ensures { result ≡ are_epochs version epoch keep }
{
    match (epoch, keep) {
        (Some(_), Some(_)) => is_second(version),
        (None, None) => true,
        _ => false,
    }
}

fn is_second(version: Option<i64>) -> bool
    ensures { result ≡ is_second version }
{
    match version_of(version) {
        Some(version) => version == 2,
        None => false,
    }
}
