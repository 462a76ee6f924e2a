//! Requests with no flight, with one that hits, and with one of the same sphere.
ghost use Rattle.std.specs.Prelude.{◌≡◌, IfOk};

use dl_arbiter::{Asked, AskedSerial, Flights, Sig, ask, ask_serial};
use dl_fly::Flight;
use dl_sig::Banked;
use dl_wbuf::Buffer;
use std::alloc::{AllocError, Global};
use std::process::Abort;
use std::test::Fail;

#[test]
fn waits_for_the_flights_of_its_sphere(rt: HostRuntime) -> Result<(), Fail> {
    waits_for_its_sphere::<Banked>(&rt, rt.alloc())
}

fn waits_for_its_sphere<G: Sig>(rt: &impl Abort, alloc: Global) -> Result<(), Fail> {
    let mut flights: Flights<G> = Flights::new(alloc, 2, 1)?;
    assert!(rt; ask_serial(3, &flights) == AskedSerial::Grant);
    let flight = Flight {
        sphere: 3,
        words: Buffer::new(alloc, 1)?,
        writes: G::empty(alloc, 64)?,
        told: 0,
    };
    assert!(rt; !flights.is_full());
    flights.add(flight);
    assert!(rt; ask_serial(2, &flights) == AskedSerial::Grant);
    assert!(rt; ask_serial(3, &flights) == AskedSerial::SphereBusy(0));
    Ok(())
}

#[test]
fn is_granted_beside_no_flight(rt: HostRuntime) -> Result<(), Fail> {
    is_granted::<Banked>(&rt, rt.alloc())
}

fn is_granted<G: Sig>(rt: &impl Abort, alloc: Global) -> Result<(), Fail> {
    let flights = Flights::new(alloc, 1, 1)?;
    let reads: G = line_8(alloc)?;
    let writes = G::empty(alloc, 64)?;
    assert!(rt; ask(&reads, &writes, &flights) == Asked::Grant);
    Ok(())
}

#[test]
fn is_denied_by_a_flight_that_hits(rt: HostRuntime) -> Result<(), Fail> {
    is_denied::<Banked>(&rt, rt.alloc())
}

#[tactic(auto, unfolding(spec_engine::specs::Flights::free_slot))]
fn is_denied<G: Sig>(rt: &impl Abort, alloc: Global) -> Result<(), Fail> {
    let reads: G = line_8(alloc)?;
    let writes = G::empty(alloc, 64)?;
    let words = Buffer::new(alloc, 1)?;
    let stored = line_8(alloc)?;
    let mut flights = Flights::new(alloc, 1, 1)?;
    flights.add(Flight {
        sphere: 0,
        words,
        writes: stored,
        told: 0,
    });
    assert!(rt; ask(&reads, &writes, &flights) == Asked::Denied(0));
    Ok(())
}

// A signature of 64 bits that has line 8.
fn line_8<G: Sig>(alloc: Global) -> Result<G, AllocError>
    ensures { IfOk result (λ signature. (G.marks signature).bits ≡ 64) }
{
    let mut signature = G::empty(alloc, 64)?;
    signature.insert(8);
    Ok(signature)
}
