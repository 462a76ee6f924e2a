//! The role of a sphere, by the keys that stand with it.
ghost use Rattle.std.specs.Prelude.{◌≡◌, ◌≤◌, Some, IfOk, IfErr, IfSome, option_map};
ghost use Rattle.dl_plan.specs.Limits.{count_of, version_of};
ghost use Rattle.dl_plan.specs.Refusal.{IsBroken};
ghost use Rattle.dl_plan.specs.Roles.{has_role_keys, made_of, role_of};
ghost use Rattle.dl_plan.specs.Values.{AreEpochs, IsCount, IsRole, epochs_view, role_view};
ghost use Rattle.dl_plan.specs.Views.{entry_view};

use crate::error::PlanError;
use crate::plan::{Epochs, Role};
use crate::sizes::{count_of, epoch_of, keep_of, version_of};
use crate::sphere::{RoleName, SphereEntries};
use std::alloc::Global;

/// The role of a sphere. Refused by rule 6 if it has not the keys that it needs, or has one that it may not have.
pub(crate) fn role_of(alloc: Global, entry: &SphereEntries<'_>) -> Result<Role, PlanError>
    ensures ok { IfOk result (λ r. role_of (entry_view entry.now) ≡ Some (role_view r)) }
    ensures limits { IfOk result (λ r. IsRole (role_view r)) }
    ensures refused { IfErr result (IsBroken 6 (role_of (entry_view entry.now))) }
{
    if !has_role_keys(entry) {
        return Err(PlanError::Refused(6));
    }
    match (entry.role, entry.mode, entry.log, entry.strata) {
        (RoleName::Plain, ..) => Ok(Role::Plain),
        (RoleName::Record, Some(mode), Some(log), _) => Ok(Role::Record {
            mode,
            version: version_in(entry)?,
            log: String::from_str(alloc, log)?,
            epochs: epochs_in(entry)?,
        }),
        (RoleName::Replay, _, _, Some(strata)) => Ok(Role::InStrata {
            strata: String::from_str(alloc, strata)?,
        }),
        (RoleName::Replay, _, Some(log), None) => Ok(Role::Replay {
            log: String::from_str(alloc, log)?,
            from: count_in(entry.from)?,
            to: count_in(entry.to)?,
        }),
        (RoleName::Record | RoleName::Replay, ..) => Err(PlanError::Refused(6)),
    }
}

/// Whether the sphere has each key that its role needs, and none that it may not have.
fn has_role_keys(entry: &SphereEntries<'_>) -> bool
    ensures { result ≡ has_role_keys (entry_view entry.now) }
{
    let (mode, version) = (entry.mode.is_some(), entry.version.is_some());
    let (log, strata) = (entry.log.is_some(), entry.strata.is_some());
    match entry.role {
        RoleName::Plain => !mode && !version && !log && !strata,
        RoleName::Record => mode && log && !strata,
        RoleName::Replay => !mode && !version && (log && !strata || !log && strata),
    }
}

/// The version of the log of a recorded sphere. Refused by rule 6 if there is no such version.
fn version_in(entry: &SphereEntries<'_>) -> Result<u8, PlanError>
    ensures ok { IfOk result (λ v. version_of entry.now.version ≡ Some v) }
    ensures limits { IfOk result (λ v. (1 ≤ v) × (v ≤ 2)) }
    ensures refused { IfErr result (IsBroken 6 (version_of entry.now.version)) }
{
    match version_of(entry.version) {
        Some(version) => Ok(version),
        None => Err(PlanError::Refused(6)),
    }
}

/// The number of a commit, if one is there. Refused by rule 6 if no log has so many.
fn count_in(count: Option<i64>) -> Result<Option<u32>, PlanError>
    ensures ok { IfOk result (λ n. count_of count ≡ Some n) }
    ensures limits { IfOk result IsCount }
    ensures refused { IfErr result (IsBroken 6 (count_of count)) }
{
    match count_of(count) {
        Some(count) => Ok(count),
        None => Err(PlanError::Refused(6)),
    }
}

/// The epochs of a recorded sphere, if both numbers are there. Refused by rule 6 if one is outside its limits.
fn epochs_in(entry: &SphereEntries<'_>) -> Result<Option<Epochs>, PlanError>
    ensures ok { IfOk result (λ epochs. made_of entry.now.epoch entry.now.keep ≡ Some (option_map epochs_view epochs)) }
    ensures limits { IfOk result (λ epochs. IfSome (option_map epochs_view epochs) AreEpochs) }
    ensures refused { IfErr result (IsBroken 6 (made_of entry.now.epoch entry.now.keep)) }
{
    let (Some(epoch), Some(keep)) = (epoch_of(entry.epoch), keep_of(entry.keep)) else {
        return Err(PlanError::Refused(6));
    };
    match (epoch, keep) {
        (Some(size), Some(keep)) => Ok(Some(Epochs { size, keep })),
        _ => Ok(None),
    }
}
