//! Whose turn keeps an actor from committing.
ghost use Rattle.std.specs.Prelude.{◌≡◌};
ghost use Rattle.spec_sphere.specs.sphere.Spheres.{other_than as other_of, turn_against as turn_before};

use dl_entry::Actor;
use dl_sphere::Sphere;

/// The actor whose turn keeps this one from committing; none where it may commit.
#[tactic(auto, unfolding(spec_sphere::specs::sphere::Spheres::head_of, spec_sphere::specs::sphere::Spheres::turn_against))]
pub(crate) fn turn_against(sphere: &Sphere, actor: Actor) -> Option<Actor>
    ensures { result ≡ turn_before sphere.now.sphere actor }
{
    match actor {
        Actor::Dma if !sphere.replays() => None,
        Actor::Thread(_) if sphere.joins_in(actor) => None,
        Actor::Dma | Actor::Thread(_) => other_than(actor, sphere.head()),
    }
}

// The actor whose turn it is, unless it is this one.
fn other_than(actor: Actor, head: Option<Actor>) -> Option<Actor>
    ensures { result ≡ other_of actor head }
{
    match (actor, head) {
        (_, None) => None,
        (Actor::Thread(thread), Some(Actor::Thread(other))) if other == thread => None,
        (Actor::Thread(_), Some(other)) => Some(other),
        (Actor::Dma, Some(Actor::Thread(other))) => Some(Actor::Thread(other)),
        (Actor::Dma, Some(Actor::Dma)) => None,
    }
}
