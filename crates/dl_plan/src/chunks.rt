//! Whether the logs that a plan has written can have its chunks.
ghost use Rattle.std.specs.Prelude.{◌≡◌};
ghost use Rattle.dl_plan.specs.Plans.{can_have, has_good_chunk};
ghost use Rattle.dl_plan.specs.Values.{plan_view, role_view};

use crate::plan::{Plan, Role};
use crate::sizes::longest_chunk;

/// Whether the plan's chunk is one of the log of each sphere that is recorded.
pub(crate) fn has_good_chunk(plan: &Plan) -> bool
    ensures { result ≡ has_good_chunk (plan_view plan.now) }
{
    let chunk = plan.sizes.chunk;
    plan.spheres
        .iter()
        .all(|sphere| can_have(chunk, &sphere.role))
}

/// Whether a chunk is one of the log of a sphere in this role, if it is recorded.
fn can_have(chunk: u32, role: &Role) -> bool
    ensures { result ≡ can_have chunk (role_view role.now) }
{
    match role {
        Role::Record { version, .. } => chunk <= longest_chunk(*version),
        Role::Plain | Role::Replay { .. } | Role::InStrata { .. } => true,
    }
}
