//! What is done to one slot.
ghost use Rattle.std.specs.Prelude.{◌≡◌, ◌<◌, ◌≤◌, IfSome, length};
ghost use Rattle.std.specs.List.{list_all};
ghost use Rattle.spec_engine.specs.Flights.{IsInside, IsOfSize, bounces, deliver, drain, first_slot, free_slot, is_none, passes, retire};

use crate::flight::Flight;
use dl_mem::Memory;
use dl_sig::Sig;
use spec_engine::answers::{Deliver, Drain, Retire};

// The lowest free slot.
#[tactic(auto, unfolding(spec_engine::specs::Flights::free_slot))]
pub(crate) fn free<G: Sig>(slots: &[Option<Flight<G>>]) -> Option<usize>
    ensures value { result ≡ free_slot slots.now }
    ensures within { IfSome result (λ k. k < length slots.now) }
{
    slots.iter().position(|slot| is_free(slot))
}

// Whether each is free.
pub(crate) fn are_free<G: Sig>(slots: &[Option<Flight<G>>]) -> bool
    ensures { result ≡ list_all is_none slots.now }
{
    slots.iter().all(|slot| is_free(slot))
}

fn is_free<G: Sig>(slot: &Option<Flight<G>>) -> bool
    ensures { result ≡ is_none slot.now }
{
    match slot {
        None => true,
        Some(_) => false,
    }
}

// The lowest slot whose flight holds up a line for the core.
#[tactic(auto, unfolding(spec_engine::specs::Flights::first_slot))]
pub(crate) fn holder<G: Sig>(slots: &[Option<Flight<G>>], core: u8, line: u32) -> Option<usize>
    ensures value { result ≡ first_slot (bounces core line) slots.now }
    ensures within { IfSome result (λ k. k < length slots.now) }
{
    slots.iter().position(|slot| holds_up(slot, core, line))
}

fn holds_up<G: Sig>(slot: &Option<Flight<G>>, core: u8, line: u32) -> bool
    ensures { result ≡ passes (bounces core line) slot.now }
{
    match slot {
        Some(flight) => flight.bounces(core, line),
        None => false,
    }
}

// The first word left goes to the memory of the flight's sphere.
pub(crate) fn drain<G: Sig>(slot: &mut Option<Flight<G>>, mem: &mut Memory) -> Drain
    requires { IsInside (length mem.old) slot.old }
    ensures reply { result ≡ (drain mem.old slot.old).reply }
    ensures slot { slot.new ≡ (drain mem.old slot.old).slot }
    ensures free { is_none slot.new ≡ is_none slot.old }
    ensures memory { mem.new ≡ (drain mem.old slot.old).memory }
{
    let Some(flight) = slot else {
        return Drain::NoCommit;
    };
    match flight.words.drain_next() {
        Some(stored) => {
            mem.put(stored.word, stored.mask, stored.value);
            Drain::Drained
        }
        None => Drain::Clean,
    }
}

// The core is told, and learns whether the flight hits what its chunk has read or written.
pub(crate) fn deliver<G: Sig>(
    slot: &mut Option<Flight<G>>,
    core: u8,
    reads: &G,
    writes: &G,
) -> Deliver
    requires core { core < 8 }
    requires reads { IsOfSize (G.marks reads.now).bits slot.old }
    requires writes { IsOfSize (G.marks writes.now).bits slot.old }
    ensures reply { result ≡ (deliver core (G.marks reads.now) (G.marks writes.now) slot.old).reply }
    ensures slot { slot.new ≡ (deliver core (G.marks reads.now) (G.marks writes.now) slot.old).slot }
    ensures free { is_none slot.new ≡ is_none slot.old }
{
    let Some(flight) = slot else {
        return Deliver::NoCommit;
    };
    if flight.was_told(core) {
        return Deliver::Already;
    }
    flight.tell(core);
    if flight.meets(reads, writes) {
        return Deliver::Squashed;
    }
    Deliver::Delivered
}

// The slot of a flight that is done becomes free.
pub(crate) fn retire<G: Sig>(slot: &mut Option<Flight<G>>, cores: u8) -> Retire
    requires { cores ≤ 8 }
    ensures reply { result ≡ (retire cores slot.old).reply }
    ensures slot { slot.new ≡ (retire cores slot.old).slot }
{
    let Some(flight) = slot else {
        return Retire::NoCommit;
    };
    if !flight.is_done(cores) {
        return Retire::NotDone;
    }
    *slot = None;
    Retire::Retired
}
