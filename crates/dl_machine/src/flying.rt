//! The events of flights: Drain, Deliver and Retire.
ghost use Rattle.std.specs.Prelude.{◌≡◌, ◌<◌, false, true, length, IsSome};
ghost use Rattle.spec_engine.specs.Flights.{at, is_full};
ghost use Rattle.spec_protocol.specs.machine.Flying.{delivering, draining, hits_younger, reply_of_drain as drain_named};
ghost use Rattle.spec_protocol.specs.machine.Flying.{reply_of_retire as retire_named, retiring, told, younger_of};
ghost use Rattle.spec_protocol.specs.machine.World.{flown};
ghost use Rattle.dl_machine.specs.Ready.{IsReady};
ghost use Rattle.dl_machine.specs.States.{left};

use crate::state::State;
use dl_fly::{Deliver, Drain, Flight, Retire};
use dl_sig::Sig;
use spec_protocol::Reply;

impl<G: Sig> State<G> {
    // The first word left of the slot's flight goes to the memory of its sphere.
    #[tactic(auto, unfolding(spec_protocol::specs::machine::Flying::draining))]
    pub(crate) fn drain(&mut self, k: u8) -> Reply
        requires slot { k < length self.old.slots }
        requires ready { IsReady self.old }
        ensures reply { result ≡ (draining self.old k).reply }
        ensures world { self.new ≡ left (draining self.old k) }
    {
        let Some(sphere) = self.flight(k) else {
            return Reply::NoCommit;
        };
        let reply = self.spheres.drain(sphere, &mut self.flights, k);
        reply_of_drain(reply)
    }

    // The core is told of the slot's flight. Its older chunk is asked first, then the younger.
    #[tactic(auto, unfolding(spec_protocol::specs::machine::Flying::delivering))]
    pub(crate) fn deliver(&mut self, core: u8, k: u8) -> Reply
        requires core { core < length self.old.cores }
        requires slot { k < length self.old.slots }
        requires ready { IsReady self.old }
        ensures reply { result ≡ (delivering self.old core k).reply }
        ensures world { self.new ≡ left (delivering self.old core k) }
    {
        let hit = self.hits_younger(core, k);
        let reads = self.cores.reads(core);
        let writes = self.cores.writes(core);
        let reply = self.flights.deliver(core, k, reads, writes);
        self.told(core, reply, hit)
    }

    // Whether the slot's flight hits what the core's younger chunk has read or written.
    fn hits_younger(&self, core: u8, k: u8) -> bool
        requires core { core < length self.now.cores }
        requires slot { k < length self.now.slots }
        requires ready { IsReady self.now }
        ensures value { result ≡ hits_younger (at self.now.slots k) (younger_of (at self.now.cores core)) }
        ensures younger { result ≡ true → IsSome (younger_of (at self.now.cores core)) }
    {
        match (self.flights.get(k), self.cores.younger(core)) {
            (Some(flight), Some(younger)) => flight.meets(younger.reads(), younger.writes()),
            (None, _) | (_, None) => false,
        }
    }

    // The slot of a flight with no word left and all cores told becomes free.
    #[tactic(auto, unfolding(spec_protocol::specs::machine::Flying::retiring))]
    pub(crate) fn retire(&mut self, k: u8) -> Reply
        requires slot { k < length self.old.slots }
        ensures reply { result ≡ (retiring self.old k).reply }
        ensures world { self.new ≡ left (retiring self.old k) }
    {
        let reply = self.flights.retire(k);
        reply_of_retire(reply)
    }

    // The core is told now, or isn't. `hit`: its younger chunk is hit.
    fn told(&mut self, core: u8, reply: Deliver, hit: bool) -> Reply
        requires core { core < length self.old.cores }
        requires younger { hit ≡ true → IsSome (younger_of (at self.old.cores core)) }
        ensures reply { result ≡ (told self.old core (at self.old.cores core) reply hit).reply }
        ensures world { self.new ≡ left (told self.old core (at self.old.cores core) reply hit) }
    {
        match reply {
            Deliver::NoCommit => Reply::NoCommit,
            Deliver::Already => Reply::Already,
            Deliver::Squashed => {
                self.cores.squash(core);
                Reply::Squashed
            }
            Deliver::Delivered if hit => {
                self.cores.squash_younger(core);
                Reply::Squashed
            }
            Deliver::Delivered => Reply::Delivered,
        }
    }

    // The words of a commit fly, if there are any.
    pub(crate) fn fly(&mut self, flight: Flight<G>)
        requires { is_full self.old.slots ≡ false }
        ensures { self.new ≡ record self.old { slots = flown flight.sphere flight.words flight.writes flight.told self.old.slots } }
    {
        if flight.words.is_empty() {
            return;
        }
        self.flights.add(flight);
    }
}

fn reply_of_drain(reply: Drain) -> Reply
    ensures { result ≡ drain_named reply }
{
    match reply {
        Drain::NoCommit => Reply::NoCommit,
        Drain::Clean => Reply::Clean,
        Drain::Drained => Reply::Drained,
    }
}

fn reply_of_retire(reply: Retire) -> Reply
    ensures { result ≡ retire_named reply }
{
    match reply {
        Retire::NoCommit => Reply::NoCommit,
        Retire::NotDone => Reply::NotDone,
        Retire::Retired => Reply::Retired,
    }
}
