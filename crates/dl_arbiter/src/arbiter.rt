//! The two requests, each of which looks through the slots in order.
ghost use Rattle.std.specs.Prelude.{◌≡◌, ◌<◌, IfSome, length};
ghost use Rattle.spec_engine.specs.Asking.{ask as asked, ask_serial as asked_serial};
ghost use Rattle.spec_engine.specs.Flights.{AreOfSize, IsOfSize, first_slot, is_of_sphere, meets_chunk, passes};

use dl_fly::{Flight, Flights};
use dl_sig::Sig;
use spec_engine::answers::{Asked, AskedSerial};

/// The request for the commit of a chunk with these reads and writes.
pub fn ask<G: Sig>(reads: &G, writes: &G, flights: &Flights<G>) -> Asked
    requires reads { AreOfSize (G.marks reads.now).bits flights.now.slots }
    requires writes { AreOfSize (G.marks writes.now).bits flights.now.slots }
    ensures { result ≡ asked (G.marks reads.now) (G.marks writes.now) flights.now.slots }
{
    match first_hit(flights.slots(), reads, writes) {
        Some(k) => Asked::Denied(k as u8),
        None => Asked::Grant,
    }
}

/// The request for a serial step of a thread of this sphere.
pub fn ask_serial<G: Sig>(sphere: u8, flights: &Flights<G>) -> AskedSerial
    ensures { result ≡ asked_serial sphere flights.now.slots }
{
    match first_of(flights.slots(), sphere) {
        Some(k) => AskedSerial::SphereBusy(k as u8),
        None => AskedSerial::Grant,
    }
}

fn first_hit<G: Sig>(slots: &[Option<Flight<G>>], reads: &G, writes: &G) -> Option<usize>
    requires reads { AreOfSize (G.marks reads.now).bits slots.now }
    requires writes { AreOfSize (G.marks writes.now).bits slots.now }
    ensures value { result ≡ first_slot (meets_chunk (G.marks reads.now) (G.marks writes.now)) slots.now }
    ensures within { IfSome result (λ k. k < length slots.now) }
{
    for k in 0..slots.len() {
        if meets(&slots[k], reads, writes) {
            return Some(k);
        }
    }
    None
}

fn meets<G: Sig>(slot: &Option<Flight<G>>, reads: &G, writes: &G) -> bool
    requires reads { IsOfSize (G.marks reads.now).bits slot.now }
    requires writes { IsOfSize (G.marks writes.now).bits slot.now }
    ensures { result ≡ passes (meets_chunk (G.marks reads.now) (G.marks writes.now)) slot.now }
{
    match slot {
        Some(flight) => flight.meets(reads, writes),
        None => false,
    }
}

#[tactic(auto, unfolding(spec_engine::specs::Flights::first_slot))]
fn first_of<G: Sig>(slots: &[Option<Flight<G>>], sphere: u8) -> Option<usize>
    ensures value { result ≡ first_slot (is_of_sphere sphere) slots.now }
    ensures within { IfSome result (λ k. k < length slots.now) }
{
    slots.iter().position(|slot| is_of(slot, sphere))
}

fn is_of<G: Sig>(slot: &Option<Flight<G>>, sphere: u8) -> bool
    ensures { result ≡ passes (is_of_sphere sphere) slot.now }
{
    match slot {
        Some(flight) => flight.is_of(sphere),
        None => false,
    }
}
