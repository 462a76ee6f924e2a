//! Machines that were worked out event by event.
ghost use Rattle.std.specs.Prelude.{◌≡◌, true, All, None, IfOk, map};
ghost use Rattle.spec_protocol.specs.promises.Sound.{AreFew};
ghost use Rattle.dl_sphere.specs.Setups.{HasBegun, IsRecordableIf, begun_as, role_setup, setup_of as as_defined, strata_as};
ghost use Rattle.dl_machine.specs.Setups.{IsWithin};

use dl_elf::{Image, load};
use dl_entry::{Actor, Bytes, Commit, Counts, End, Load, OutOfMemory, Sequence};
use dl_finish::{finish, next_event};
use dl_logfmt::{read_log, write_log};
use dl_machine::{Machine, Setup};
use dl_sig::Banked;
use dl_sphere::{Begun, Interval, Memory, Replay, Role, Sphere, SphereSetup, State};
use spec_log::{Log, ModeName};
use spec_protocol::{Event, Reply};
use std::alloc::{AllocError, Global};
use std::process::Abort;
use std::test::Fail;

mod programs;
mod recordings;
mod replays;
mod two_chunks;

/// A machine with signatures of 64 bits: its events and those that then finish it, with their replies, and what it then
/// holds.
#[derive(Clone, Copy)]
struct Row {
    name: &'static str,
    cores: u8,
    depth: u8,
    window: u8,
    s: u32,
    capacity: u32,
    input: &'static [u8],
    spheres: &'static [Life],
    events: &'static [(Event, Reply)],
    finishing: &'static [(Event, Reply)],
    console: &'static [u8],
}

/// A sphere: its code and role, and its commits at the end by their actors and sizes, with all that they loaded.
#[derive(Clone, Copy)]
struct Life {
    code: &'static [u32],
    role: Lived,
    commits: &'static [(Actor, u32)],
    loads: &'static [Load],
}

/// A role, with the log that is recorded or replayed, and the end of a replay.
#[derive(Clone, Copy)]
enum Lived {
    Plain,
    Recorded {
        mode: ModeName,
        log: &'static [u8],
    },
    Replayed {
        log: &'static [u8],
        end: Option<End>,
    },
    /// The first `to` commits of the log, and no more.
    Cut {
        log: &'static [u8],
        to: u32,
        end: Option<End>,
    },
}

// The bytes of every memory.
const MEMORY: u32 = 12_288;

const T0: Actor = Actor::Thread(0);

const T1: Actor = Actor::Thread(1);

#[test]
fn recordings_go_as_they_were_worked(rt: HostRuntime) -> Result<(), Fail> {
    for row in recordings::ROWS {
        goes_as_worked(&rt, rt.alloc(), row)?;
    }
    Ok(())
}

#[test]
fn replays_go_as_they_were_worked(rt: HostRuntime) -> Result<(), Fail> {
    for row in replays::ROWS {
        goes_as_worked(&rt, rt.alloc(), row)?;
    }
    Ok(())
}

#[test]
fn two_chunks_of_a_core_go_as_they_were_worked(rt: HostRuntime) -> Result<(), Fail> {
    for row in two_chunks::ROWS {
        goes_as_worked(&rt, rt.alloc(), row)?;
    }
    Ok(())
}

// A machine is dropped where it was made, after a call that does all that may fail: to be proved to end wherever a function may
// return takes long.
fn goes_as_worked(rt: &impl Abort, alloc: Global, row: &Row) -> Result<(), Fail> {
    let mut machine = machine_of(alloc, row)?;
    let went = goes(rt, alloc, &mut machine, row);
    drop(machine);
    went
}

// Once by the events that are listed, and once more by `finish`, which takes as many events.
fn goes(
    rt: &impl Abort,
    alloc: Global,
    stepped: &mut Machine<Banked>,
    row: &Row,
) -> Result<(), Fail> {
    for &(event, reply) in row.events {
        let answered = take(stepped, event)?;
        assert!(rt; answered == Some(reply), "{}: {event:?}", row.name);
    }
    for &(event, reply) in row.finishing {
        assert!(rt;
            next_event(stepped) == Some(event),
            "{}: {event:?}",
            row.name
        );
        let answered = take(stepped, event)?;
        assert!(rt; answered == Some(reply), "{}: {event:?}", row.name);
    }
    assert!(rt; next_event(stepped).is_none(), "{}", row.name);
    assert!(rt; finished(alloc, row)? == *stepped.counts(), "{}", row.name);
    have_lived(rt, alloc, stepped, row)
}

// What the machine has counted once its events are taken and it is finished.
fn finished(alloc: Global, row: &Row) -> Result<Counts, Fail> {
    let mut machine = machine_of(alloc, row)?;
    let finished = take_all(&mut machine, row);
    let counts = *machine.counts();
    drop(machine);
    finished?;
    Ok(counts)
}

fn take_all(machine: &mut Machine<Banked>, row: &Row) -> Result<(), Fail> {
    for &(event, _) in row.events {
        take(machine, event)?;
    }
    if machine.counts().events >= 1 << 24 {
        return Err("too many events".into());
    }
    Ok(finish(machine)?)
}

// The reply, if the machine may still take events.
fn take(machine: &mut Machine<Banked>, event: Event) -> Result<Option<Reply>, OutOfMemory> {
    if machine.counts().events >= 1 << 24 {
        return Ok(None);
    }
    Ok(Some(machine.apply(event)?))
}

fn have_lived(
    rt: &impl Abort,
    alloc: Global,
    machine: &Machine<Banked>,
    row: &Row,
) -> Result<(), Fail> {
    assert!(rt; machine.console() == row.console, "{}", row.name);
    for (i, life) in row.spheres.iter().enumerate() {
        let number = (i % 8) as u8;
        if number >= machine.spheres() {
            return Err("a sphere is missing".into());
        }
        let sphere = machine.sphere(number);
        assert!(rt; has_lived(alloc, sphere, life)?, "{} {i}", row.name);
    }
    Ok(())
}

// Whether the sphere has become what is said of it.
fn has_lived(alloc: Global, sphere: &Sphere, life: &Life) -> Result<bool, OutOfMemory> {
    let has_ended = match life.role {
        Lived::Plain => sphere.end().is_none(),
        Lived::Recorded { log, .. } => log_of(alloc, sphere)?.as_slice() == log,
        Lived::Replayed { end, .. } | Lived::Cut { end, .. } => sphere.end() == end,
    };
    Ok(has_ended && has_done(alloc, sphere.commits().whole(), life)?)
}

// The bytes of its log, if it is recorded.
fn log_of(alloc: Global, sphere: &Sphere) -> Result<Vec<u8>, OutOfMemory> {
    if !sphere.halves() {
        return Ok(Vec::new(alloc));
    }
    written(alloc, sphere.log()?)
}

fn written(alloc: Global, log: Log) -> Result<Vec<u8>, OutOfMemory> {
    let bytes = write_log(alloc, &log);
    drop(log);
    bytes
}

fn has_done(alloc: Global, commits: &[Commit], life: &Life) -> Result<bool, AllocError> {
    let mut done = Vec::new(alloc);
    let mut loads = Vec::new(alloc);
    for commit in commits {
        done.push((commit.actor, commit.size))?;
        loads.extend_from_slice(commit.loads.as_slice())?;
    }
    Ok(done.as_slice() == life.commits && loads.as_slice() == life.loads)
}

fn machine_of(alloc: Global, row: &Row) -> Result<Machine<Banked>, Fail> {
    let setup = setup_of(alloc, row)?;
    let machine = made(alloc, &setup);
    drop(setup);
    machine
}

fn made(alloc: Global, setup: &Setup) -> Result<Machine<Banked>, Fail>
    requires { All HasBegun setup.now.spheres }
{
    if !is_within(setup) {
        return Err("a number is out of its limits".into());
    }
    Ok(Machine::new(alloc, setup)?)
}

fn is_within(setup: &Setup) -> bool
    requires { All HasBegun setup.now.spheres }
    ensures { result ≡ true → IsWithin setup.now }
{
    are_few(setup.cores as usize)
        && are_few(setup.window as usize)
        && are_few(setup.spheres.len())
        && (16..=4096).contains(&setup.s)
        && (1..=4096).contains(&setup.capacity)
        && setup.bits == 64
        && (1..=2).contains(&setup.depth)
        && are_recordable(setup.s, setup.spheres.as_slice())
}

// Whether standard chunks of so many instructions fit the log of each sphere that is recorded.
fn are_recordable(s: u32, spheres: &[SphereSetup]) -> bool
    ensures { result ≡ true → All (λ image. IsRecordableIf s image.role) (map as_defined spheres.now) }
{
    for sphere in spheres {
        if !is_recordable(s, &sphere.role) {
            return false;
        }
    }
    true
}

fn is_recordable(s: u32, role: &Role) -> bool
    ensures { result ≡ true → IsRecordableIf s (role_setup role.now) }
{
    match role {
        Role::Plain | Role::Replay(_) => true,
        Role::Record {
            version,
            epochs,
            ..
        } => *version == 1 && epochs.is_none() && (16..=4096).contains(&s),
    }
}

fn are_few(count: usize) -> bool
    ensures { result ≡ true → AreFew count }
{
    1 <= count && count <= 8
}

fn setup_of(alloc: Global, row: &Row) -> Result<Setup, Fail>
    ensures { IfOk result (λ setup. All HasBegun setup.spheres) }
{
    let input = Bytes::from_slice(alloc, row.input)?;
    let mut spheres = Sequence::new(alloc);
    for life in row.spheres {
        spheres.push(sphere_of(alloc, life)?)?;
    }
    Ok(Setup {
        cores: row.cores,
        window: row.window,
        s: row.s,
        capacity: row.capacity,
        bits: 64,
        depth: row.depth,
        seed: 0,
        input,
        spheres,
    })
}

#[tactic(auto, using(dl_sphere::proofs::Standing::Start::unless_begun))]
fn sphere_of(alloc: Global, life: &Life) -> Result<SphereSetup, Fail>
    ensures { IfOk result HasBegun }
{
    let image = load(alloc, &file_of(alloc, life.code)?, MEMORY)?;
    if let Lived::Cut { log, to, .. } = life.role {
        return cut(alloc, image, read_log(alloc, log)?, to);
    }
    let role = role_of(alloc, life.role)?;
    Ok(SphereSetup { image, role })
}

// A role without an interval.
fn role_of(alloc: Global, lived: Lived) -> Result<Role, Fail>
    ensures begun { IfOk result (λ role. begun_as role ≡ None) }
    ensures strata { IfOk result (λ role. strata_as role ≡ None) }
{
    match lived {
        Lived::Plain => Ok(Role::Plain),
        Lived::Recorded { mode, .. } => Ok(Role::Record {
            version: 1,
            mode,
            epochs: None,
        }),
        Lived::Replayed { log, .. } | Lived::Cut { log, .. } => Ok(Role::Replay(Replay::Log {
            log: read_log(alloc, log)?,
            begun: None,
        })),
    }
}

// A replay of the first commits of a log, or of all if there are fewer.
fn cut(alloc: Global, image: Image, log: Log, to: u32) -> Result<SphereSetup, Fail>
    ensures { IfOk result HasBegun }
{
    let last = to.min(log.parts().count);
    let state = State::first(Memory::new(alloc, &image)?, image.entry());
    let begun = Begun {
        interval: Interval { first: 0, last },
        state,
        diverged: None,
    };
    let role = Role::Replay(Replay::Log {
        log,
        begun: Some(begun),
    });
    Ok(SphereSetup { image, role })
}

// What a file of 16 words of code has before them.
const HEAD: [u8; 84] = [
    0x7F, 0x45, 0x4C, 0x46, 1, 1, 1, 0, 0, 0, 0, 0, 0, 0, 0, 0, 2, 0, 0xF3, 0, 1, 0, 0, 0, 0, 0, 0,
    0, 0x34, 0, 0, 0, 0, 0, 0, 0, 0, 0, 0, 0, 0x34, 0, 0x20, 0, 1, 0, 0, 0, 0, 0, 0, 0, 1, 0, 0, 0,
    0x54, 0, 0, 0, 0, 0, 0, 0, 0, 0, 0, 0, 0x40, 0, 0, 0, 0x40, 0, 0, 0, 7, 0, 0, 0, 4, 0, 0, 0,
];

// The file of that code, with zeros after it.
fn file_of(alloc: Global, code: &[u32]) -> Result<Vec<u8>, AllocError> {
    let mut file = Vec::from_slice(alloc, &HEAD)?;
    for i in 0..16 {
        let word = code.get(i).copied().unwrap_or(0);
        file.extend_from_slice(&word.to_le_bytes())?;
    }
    Ok(file)
}
