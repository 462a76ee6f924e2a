//! Machines that take schedules.
use crate::file::file;
use dl_elf::load;
use dl_entry::{Bytes, OutOfMemory, ReplyName, Sequence};
use dl_event::Seeded;
use dl_machine::{Machine, Setup};
use dl_sig::Banked;
use dl_sphere::{Role, SphereSetup};
use spec_log::ModeName;
use spec_protocol::Event;
use std::alloc::Global;
use std::fmt;
use std::fmt::{Display, Formatter, Write};

/// The outcome of a schedule.
#[derive(Clone, Copy)]
pub struct Outcome {
    cores: u8,
    schedule: &'static str,
    events: u64,
    ran: u64,
    granted: u64,
    drained: u64,
}

impl Display for Outcome {
    fn fmt<W: Write>(&self, f: &mut Formatter<W>) -> fmt::Result {
        write!(
            f,
            "cores {} {}: {} events, {} ran, {} granted, {} drained",
            self.cores, self.schedule, self.events, self.ran, self.granted, self.drained
        )
    }
}

/// Runs that many rounds, of at most 2^24 events.
pub fn in_rounds(alloc: Global, cores: u8, depth: u8, rounds: u32) -> anyhow::Result<Outcome> {
    let mut machine = machine_of(alloc, cores, depth)?;
    for _ in 0..rounds {
        round(&mut machine, cores)?;
    }
    Ok(outcome_of(&machine, cores, "in rounds"))
}

// Each core fills a chunk and asks. Then the words of every flight are drained, every core is told, and the slot is freed.
fn round(machine: &mut Machine<Banked>, cores: u8) -> Result<(), OutOfMemory> {
    for _ in 0..101 {
        for core in 0..cores {
            take(machine, Event::Step(core))?;
        }
    }
    for core in 0..cores {
        take(machine, Event::Ask(core))?;
    }
    for slot in 0..cores {
        make_visible(machine, cores, slot)?;
    }
    Ok(())
}

fn make_visible(machine: &mut Machine<Banked>, cores: u8, slot: u8) -> Result<(), OutOfMemory> {
    for _ in 0..16 {
        take(machine, Event::Drain(slot))?;
    }
    for core in 0..cores {
        take(machine, Event::Deliver(core, slot))?;
    }
    take(machine, Event::Retire(slot))
}

/// Runs that many events, at most 2^24, of the schedule of seed 1.
pub fn drawn(alloc: Global, cores: u8, depth: u8, events: u32) -> anyhow::Result<Outcome> {
    let mut machine = machine_of(alloc, cores, depth)?;
    let mut schedule = Seeded::new(1);
    for _ in 0..events {
        take(&mut machine, schedule.next())?;
    }
    Ok(outcome_of(&machine, cores, "drawn"))
}

// The machine takes the event, if it has taken fewer than 2^24.
fn take(machine: &mut Machine<Banked>, event: Event) -> Result<(), OutOfMemory> {
    if machine.counts().events < 1 << 24 {
        machine.apply(event)?;
    }
    Ok(())
}

fn outcome_of(machine: &Machine<Banked>, cores: u8, schedule: &'static str) -> Outcome {
    let counts = machine.counts();
    Outcome {
        cores,
        schedule,
        events: counts.events,
        ran: counts.of(ReplyName::Ran),
        granted: counts.of(ReplyName::Granted),
        drained: counts.of(ReplyName::Drained),
    }
}

// A machine of 1 to 8 cores, each with 1 or 2 chunks of 101 instructions.
fn machine_of(alloc: Global, cores: u8, depth: u8) -> anyhow::Result<Machine<Banked>> {
    let mut spheres = Sequence::new(alloc);
    for _ in 0..cores {
        spheres.push(SphereSetup {
            image: load(alloc, &file(alloc)?, 32_768)?,
            role: Role::Record {
                version: 1,
                mode: ModeName::OrderSize,
                epochs: None,
            },
        })?;
    }
    if spheres.is_empty() || spheres.len() > 8 {
        anyhow::bail!("no machine has so many cores");
    }
    if depth != 1 && depth != 2 {
        anyhow::bail!("no core has so many chunks");
    }
    let setup = Setup {
        cores: spheres.len() as u8,
        window: spheres.len() as u8,
        s: 101,
        capacity: 16,
        bits: 2048,
        depth,
        seed: 0,
        input: Bytes::new(alloc),
        spheres,
    };
    Ok(Machine::new(alloc, &setup)?)
}
