//! The next event of finishing. It is found without memory.
ghost use Rattle.std.specs.Prelude.{◌≡◌, ◌≤◌, ◌<◌, true, Some, IfSome, length};
ghost use Rattle.spec_engine.specs.Flights.{first_slot, passes, told_at};
ghost use Rattle.spec_protocol.specs.machine.Finishing.{for_actor as event_of_actor, for_core, for_flight as event_of_flight, for_turn, least, next};
ghost use Rattle.spec_protocol.specs.machine.Finishing.{standing as standing_in, untold as untold_from};
ghost use Rattle.spec_protocol.specs.machine.World.{core_of};
ghost use Rattle.dl_finish.specs.Turns.{on_core as event_on_core, turn_in};

use dl_entry::Actor;
use dl_fly::{Flight, Flights};
use dl_machine::Machine;
use dl_sig::Sig;
use dl_sphere::Sphere;
use spec_protocol::Event;

/// The event that comes next once a schedule has ended: the lowest slot's flight is made visible, or else the lowest
/// replay goes on. There is none if no flight is left and every replay is complete or has diverged.
#[tactic(auto, unfolding(spec_protocol::specs::machine::Finishing::next))]
pub fn next_event<G: Sig>(machine: &Machine<G>) -> Option<Event>
    ensures { result ≡ next machine.now }
{
    let flights = machine.flights();
    match standing(flights.slots()) {
        Some(k) => {
            let flight = flights.get(k)?;
            Some(for_flight(k, flight, machine.cores()))
        }
        None => for_replays(machine),
    }
}

// The lowest slot with a flight.
fn standing<G: Sig>(slots: &[Option<Flight<G>>]) -> Option<u8>
    requires { length slots.now ≤ 8 }
    ensures value { result ≡ first_slot (λ f. true) slots.now }
    ensures within { IfSome result (λ k. k < length slots.now) }
{
    match first_taken(slots) {
        Some(k) => Some(k as u8),
        None => None,
    }
}

#[tactic(auto, unfolding(spec_engine::specs::Flights::first_slot))]
fn first_taken<G: Sig>(slots: &[Option<Flight<G>>]) -> Option<usize>
    ensures value { result ≡ first_slot (λ f. true) slots.now }
    ensures within { IfSome result (λ k. k < length slots.now) }
{
    slots.iter().position(|slot| is_taken(slot))
}

fn is_taken<G: Sig>(slot: &Option<Flight<G>>) -> bool
    ensures { result ≡ passes (λ f. true) slot.now }
{
    match slot {
        Some(_) => true,
        None => false,
    }
}

// Words are drained while there are any, then the cores are told, then the slot is freed.
fn for_flight<G: Sig>(k: u8, flight: &Flight<G>, cores: u8) -> Event
    requires { cores ≤ 8 }
    ensures { result ≡ event_of_flight cores k flight.now flight.now.words }
{
    if !flight.words.is_empty() {
        return Event::Drain(k);
    }
    match untold(flight.told, cores) {
        Some(core) => Event::Deliver(core, k),
        None => Event::Retire(k),
    }
}

// The lowest core that was not told.
fn untold(told: u8, cores: u8) -> Option<u8>
    requires { cores ≤ 8 }
    ensures { result ≡ untold_from 0 cores told }
{
    for core in 0..cores {
        if !was_told(told, core) {
            return Some(core);
        }
    }
    None
}

fn was_told(told: u8, core: u8) -> bool
    requires { core < 8 }
    ensures { result ≡ told_at told core }
{
    told >> core & 1 == 1
}

// The lowest replay that still goes on does its next event.
fn for_replays<G: Sig>(machine: &Machine<G>) -> Option<Event>
    ensures { result ≡ for_turn machine.now (least 0 machine.now.spheres) }
{
    for i in 0..machine.spheres() {
        if let Some(actor) = turn(machine.sphere(i)) {
            return Some(for_actor(machine, i, actor));
        }
    }
    None
}

// Whose turn it is in a replay that still goes on.
#[tactic(auto, unfolding(spec_sphere::specs::sphere::Spheres::head_of))]
fn turn(sphere: &Sphere) -> Option<Actor>
    ensures { result ≡ turn_in sphere.now.sphere.role }
{
    if !sphere.replays() {
        return None;
    }
    sphere.head()
}

fn for_actor<G: Sig>(machine: &Machine<G>, sphere: u8, actor: Actor) -> Event
    ensures { Some result ≡ event_of_actor machine.now sphere actor }
{
    match actor {
        Actor::Dma => Event::Dma(sphere),
        Actor::Thread(thread) => for_thread(machine, sphere, thread),
    }
}

// A thread is placed on core 0 if it is on no core.
fn for_thread<G: Sig>(machine: &Machine<G>, sphere: u8, thread: u8) -> Event
    ensures { let core = core_of machine.now sphere thread in
        Some result ≡ for_core machine.now sphere thread core }
{
    for core in 0..machine.cores() {
        if let Some(event) = on_core(machine, core, sphere, thread) {
            return event;
        }
    }
    Event::Place(0, sphere, thread)
}

// If the core runs the thread, an open chunk is stepped, and a closed one asks.
fn on_core<G: Sig>(machine: &Machine<G>, core: u8, sphere: u8, thread: u8) -> Option<Event>
    requires { core < length machine.now.cores }
    ensures { result ≡ event_on_core machine.now core sphere thread }
{
    let held = machine.holds(core)?;
    if held.sphere != sphere || held.thread != thread {
        return None;
    }
    // This is its older chunk, so no younger one begins.
    if held.closed {
        return Some(Event::Ask(core));
    }
    Some(Event::Step(core))
}
