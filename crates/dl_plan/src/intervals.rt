//! Whether the spheres of a plan begin and end within a log only where they may.
ghost use Rattle.std.specs.Prelude.{◌≡◌, map};
ghost use Rattle.std.specs.List.{list_all};
ghost use Rattle.dl_plan.specs.Roles.{are_in_order, has_good_interval};
ghost use Rattle.dl_plan.specs.Views.{entry_view};

use crate::sphere::{RoleName, SphereEntries};

/// Whether each sphere with `from` or `to` replays a log, and ends no earlier than it begins.
pub(crate) fn have_good_intervals(spheres: &[SphereEntries<'_>]) -> bool
    ensures { result ≡ list_all has_good_interval (map entry_view spheres.now) }
{
    spheres.iter().all(|sphere| has_good_interval(sphere))
}

fn has_good_interval(sphere: &SphereEntries<'_>) -> bool
    ensures { result ≡ has_good_interval (entry_view sphere.now) }
{
    match (sphere.role, sphere.strata) {
        (RoleName::Replay, None) => are_in_order(sphere.from, sphere.to),
        _ => sphere.from.is_none() && sphere.to.is_none(),
    }
}

fn are_in_order(from: Option<i64>, to: Option<i64>) -> bool
    ensures { result ≡ are_in_order from to }
{
    match (from, to) {
        (Some(from), Some(to)) => from <= to,
        _ => true,
    }
}
