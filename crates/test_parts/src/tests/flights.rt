//! Slots as they are made, the lowest free one, and what is done to a flight in its slot.
ghost use Rattle.std.specs.Prelude.{◌≡◌, ◌∷◌, [], ◌≤◌, ℕ, Some, IfOk};
ghost use Rattle.spec_engine.specs.Flights.{IsInside, IsOfSize};

use super::small::SEVEN;
use dl_elf::load;
use dl_fly::{Buffer, Deliver, Drain, Flight, Flights, Memory, Retire, Sig};
use dl_sig::PlainSet;
use std::alloc::{AllocError, Global};
use std::test::Fail;

// A flight of no words.
fn empty_flight(alloc: Global, sphere: u8) -> Result<Flight<PlainSet>, AllocError>
    ensures words { IfOk result (λ f. f.words ≡ []) }
    ensures bits { IfOk result (λ f. IsOfSize 64 (Some f)) }
{
    let words = Buffer::new(alloc, 1)?;
    let writes = PlainSet::empty(alloc, 64)?;
    Ok(Flight {
        sphere,
        words,
        writes,
        told: 0,
    })
}

#[test]
fn takes_the_least_free_slot(rt: HostRuntime) -> Result<(), Fail> {
    let mut flights = Flights::new(rt.alloc(), 2, 8)?;
    assert!(rt; flights.window() == 2);
    assert!(rt; flights.retire(1) == Retire::NoCommit);
    for (sphere, slot) in TAKEN {
        let flight = empty_flight(rt.alloc(), *sphere)?;
        assert!(rt; !flights.is_full());
        assert!(rt; flights.add(flight) == *slot);
    }
    assert!(rt; flights.is_full());
    Ok(())
}

// A sphere whose flight is added, and the slot that it takes.
const TAKEN: &[(u8, u8)] = &[(3, 0), (5, 1)];

// A flight of one word, which is 7, at address 4.
#[tactic(auto, unfolding(spec_isa::specs::Masks::bytes_of))]
fn storing(alloc: Global) -> Result<Flight<PlainSet>, Fail>
    ensures inside { IfOk result (λ f. (size : ℕ) → 4096 ≤ size → IsInside size (Some f)) }
    ensures bits { IfOk result (λ f. IsOfSize 64 (Some f)) }
{
    let mut flight = empty_flight(alloc, 0)?;
    flight.words.put(4, 15, 7)?;
    flight.writes.insert(0);
    Ok(flight)
}

// One slot, with this flight, which is told to one core.
#[tactic(auto, unfolding(spec_engine::specs::Flights::free_slot))]
fn standing(alloc: Global, flight: Flight<PlainSet>) -> Result<Flights<PlainSet>, AllocError>
    ensures { IfOk result (λ f. f ≡ record { cores = 1; slots = Some flight ∷ [] }) }
{
    let mut flights = Flights::new(alloc, 1, 1)?;
    flights.add(flight);
    Ok(flights)
}

#[test]
fn a_word_drains_to_memory(rt: HostRuntime) -> Result<(), Fail> {
    let mut mem = Memory::new(rt.alloc(), &load(rt.alloc(), &SEVEN, 4096)?)?;
    let mut flights = standing(rt.alloc(), storing(rt.alloc())?)?;
    assert!(rt; flights.drain(0, &mut mem) == Drain::Drained);
    assert!(rt; mem.size() == 4096);
    assert!(rt; mem.word(0) == 0x0070_0513 && mem.word(4) == 7);
    Ok(())
}

#[test]
fn a_core_whose_chunk_is_hit_is_squashed(rt: HostRuntime) -> Result<(), Fail> {
    let mut flights = standing(rt.alloc(), storing(rt.alloc())?)?;
    let mut reads = PlainSet::empty(rt.alloc(), 64)?;
    let writes = PlainSet::empty(rt.alloc(), 64)?;
    reads.insert(0);
    assert!(rt; flights.deliver(0, 0, &reads, &writes) == Deliver::Squashed);
    Ok(())
}

#[test]
fn a_flight_that_is_done_retires(rt: HostRuntime) -> Result<(), Fail> {
    let mut flight = empty_flight(rt.alloc(), 0)?;
    flight.told = 1;
    let mut flights = standing(rt.alloc(), flight)?;
    assert!(rt; flights.retire(0) == Retire::Retired);
    assert!(rt; flights.retire(0) == Retire::NoCommit);
    Ok(())
}
