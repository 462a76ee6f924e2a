//! The state in which an epoch of a recorded sphere begins.
ghost use Rattle.std.specs.Prelude.{◌≡◌, length, IfOk, OnOk};
ghost use Rattle.spec_isa.specs.Words.{lays};
ghost use Rattle.spec_isa.specs.Inside.{AreInside};
ghost use Rattle.spec_engine.specs.Flying.{flying, words_of};
ghost use Rattle.dl_sphere.specs.Begins.{state_over};

use dl_entry::OutOfMemory;
use dl_fly::{Flight, Flights};
use dl_kernel::State;
use dl_mem::{Memory, Snapshot};
use dl_sig::Sig;
use dl_wbuf::Buffer;
use spec_play::Used;
use std::alloc::Global;

// The state of a recorded sphere now, with its current memory.
pub(crate) fn current_state<G: Sig>(
    alloc: Global,
    state: &mut State,
    flights: &Flights<G>,
    number: u8,
) -> Result<State<Snapshot>, OutOfMemory>
    requires { AreInside (length state.old.memory) (flying number flights.now.slots) }
    ensures now { IfOk result (λ kept. kept ≡ state_over (lays state.old.memory (flying number flights.now.slots)) state.old) }
    ensures unchanged { state.new ≡ state.old }
{
    let memory = current_memory(alloc, &mut state.memory, flights, number)?;
    Ok(State {
        memory,
        threads: state.threads.again(),
        request: state.request,
        last: state.last,
        commits: state.commits,
        used: Used {
            inputs: 0,
            interrupts: 0,
            dmas: 0,
        },
    })
}

// The memory with the words laid over it that are left in the flights of the sphere of that number.
fn current_memory<G: Sig>(
    alloc: Global,
    memory: &mut Memory,
    flights: &Flights<G>,
    number: u8,
) -> Result<Snapshot, OutOfMemory>
    requires { AreInside (length memory.old) (flying number flights.now.slots) }
    ensures now { IfOk result (λ bytes. bytes ≡ lays memory.old (flying number flights.now.slots)) }
    ensures unchanged { memory.new ≡ memory.old }
{
    let mut bytes = memory.snapshot()?;
    for slot in flights.slots() {
        lay_flight(alloc, &mut bytes, slot, number)?;
    }
    Ok(bytes)
}

// Lays the words over the bytes that are left in a flight, if it is of the sphere of that number.
fn lay_flight<G: Sig>(
    alloc: Global,
    bytes: &mut Snapshot,
    slot: &Option<Flight<G>>,
    number: u8,
) -> Result<(), OutOfMemory>
    requires { AreInside (length bytes.old) (words_of number slot.now) }
    ensures { OnOk result (bytes.new ≡ lays bytes.old (words_of number slot.now)) }
{
    match slot {
        Some(flight) if flight.is_of(number) => lay_words(alloc, bytes, &flight.words),
        Some(_) | None => Ok(()),
    }
}

// Lays the words over the bytes.
fn lay_words(alloc: Global, bytes: &mut Snapshot, words: &Buffer) -> Result<(), OutOfMemory>
    requires { AreInside (length bytes.old) words.now.words }
    ensures { OnOk result (bytes.new ≡ lays bytes.old words.now.words) }
{
    for &stored in words.iter() {
        bytes.put(alloc, stored.word, stored.mask, stored.value)?;
    }
    Ok(())
}
