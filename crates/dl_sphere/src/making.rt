//! A sphere before its first commit.
ghost use Rattle.std.specs.Prelude.{◌≡◌, ℕ, ◌%◌, IfOk, length};
ghost use Rattle.spec_isa.specs.Words.{IsBytes};
ghost use Rattle.spec_log.specs.Log.{IsLog};
ghost use Rattle.spec_play.specs.Resuming.{IsBounded};
ghost use Rattle.spec_sphere.specs.sphere.Setups.{sphere_of};
ghost use Rattle.spec_sphere.specs.promises.Sound.{IsChunkSize, IsImage, IsRole, IsSoundIf};
ghost use Rattle.dl_kernel.specs.States.{state_in};
ghost use Rattle.dl_replay.specs.Replays.{IsReplaying};
ghost use Rattle.dl_sphere.specs.Roles.{keeping_of};
ghost use Rattle.dl_sphere.specs.Setups.{HasBegun, IsFirstIf, IsRecordableIf, begun_of, diverged_in, log_of, replay_setup, role_setup, setup_of};
ghost use Rattle.dl_sphere.specs.Starting.{IsReplayingIf, diverged_if, keeping_at, start_as, started_from};

use crate::part::{Part, Replayed};
use crate::player::Player;
use crate::recording::Recording;
use crate::setup::{Replay, Role, SphereSetup};
use crate::sphere::Sphere;
use dl_elf::Image;
use dl_entry::OutOfMemory;
use dl_kernel::{InOrder, Past, State};
use dl_mem::Memory;
use std::alloc::Global;

impl Sphere {
    /// A sphere of this plan, with standard chunks of so many instructions. If it is recorded, they and its epochs fit the
    /// version of its log; if it replays an interval, this begins in its log's play on the image; and if it replays strata, they
    /// are parallel there.
    pub fn new(alloc: Global, setup: &SphereSetup, s: u32) -> Result<Sphere, OutOfMemory>
        requires size { IsChunkSize s }
        requires role { IsRecordableIf s (role_setup setup.now.role) }
        requires begun { HasBegun setup.now }
        ensures made { IfOk result (λ p. p ≡ record { s = s; sphere = sphere_of s (setup_of setup.now) }) }
        ensures image { IfOk result (λ p. IsImage s (setup_of setup.now)) }
    {
        let state = start_of(alloc, setup)?;
        let part = part_of(alloc, setup, s, &state)?;
        let past = Past {
            alloc,
            first: state.commits,
            commits: InOrder::new(alloc),
            state,
        };
        Ok(Sphere { s, past, part })
    }
}

// The image before the first commit, or where the interval of a replay begins.
fn start_of(alloc: Global, setup: &SphereSetup) -> Result<State, OutOfMemory>
    requires begun { HasBegun setup.now }
    ensures state { let image = setup_of setup.now in IfOk result (λ state. state_in state ≡ start_as image image.role) }
    ensures image { let image = setup_of setup.now in (s : ℕ) → IsRole s image.role → IsImage s image }
{
    let entry = entry_of(setup);
    match setup.role.begun() {
        Some(begun) => begun.state.again(alloc),
        None => Ok(State::first(Memory::new(alloc, &setup.image)?, entry)),
    }
}

// Where thread 0 starts in the image, which is one for any role.
fn entry_of(setup: &SphereSetup) -> u32
    requires { HasBegun setup.now }
    ensures value { result ≡ setup.now.image.entry }
    ensures aligned { result % 4 ≡ 0 }
    ensures image { let image = setup_of setup.now in (s : ℕ) → IsRole s image.role → IsImage s image }
{
    // the proof sees here that the image has bytes
    let _ = bytes_of(&setup.image);
    setup.image.entry()
}

fn bytes_of(image: &Image) -> &[u8]
    ensures { IsBytes image.now.bytes }
{
    let bytes = image.bytes();
    bytes
}

// What is kept for its role where the sphere starts.
fn part_of(alloc: Global, setup: &SphereSetup, s: u32, state: &State) -> Result<Part, OutOfMemory>
    requires recorded { IsRecordableIf s (role_setup setup.now.role) }
    requires begun { HasBegun setup.now }
    requires start { let image = setup_of setup.now in state_in state.now ≡ start_as image image.role }
    requires image { let image = setup_of setup.now in IsRole s image.role → IsImage s image }
    ensures kept { let image = setup_of setup.now in IfOk result (λ part. keeping_of part ≡ keeping_at image s image.role) }
    ensures at { IfOk result (λ part. IsReplayingIf (keeping_of part) state.now) }
    ensures role { IfOk result (λ part. IsRole s (role_setup setup.now.role)) }
{
    match &setup.role {
        Role::Plain => Ok(Part::Plain),
        Role::Record {
            version,
            mode,
            epochs,
        } => {
            let recording = Recording::new(alloc, *version, *mode, s, *epochs)?;
            Ok(Part::Recorded(recording))
        }
        Role::Replay(replay) => {
            see_log(replay);
            Ok(Part::Replayed(Replayed {
                player: player_of(alloc, replay, state)?,
                loads: Vec::new(alloc),
            }))
        }
    }
}

// What is replayed is a log: the proof of the caller sees it here.
fn see_log(replay: &Replay)
    ensures { IsLog (log_of replay.now) }
{
    match replay {
        Replay::Log { log, .. } => {
            let _ = log.parts();
        }
        Replay::Strata(strata) => {
            let _ = strata.parts();
        }
    }
}

// The replay from a state of its log's play on; it has diverged if the play did before the interval.
fn player_of(alloc: Global, replay: &Replay, state: &State) -> Result<Player, OutOfMemory>
    requires first { IsFirstIf replay.now state.now.commits }
    requires bounded { IsBounded (log_of replay.now) (state_in state.now) }
    requires request { IsSoundIf (length state.now.memory) state.now.request }
    ensures from { let r = replay.now in IfOk result (λ player.
        player ≡ diverged_if (diverged_in (begun_of r)) state.now.commits (started_from (replay_setup r) (state_in state.now))) }
    ensures at { IfOk result (λ player. IsReplaying player state.now) }
{
    let mut player = started(alloc, replay, state)?;
    if let Some(why) = replay.diverged() {
        player.diverge(why, state);
    }
    Ok(player)
}

// The replay of a log, or of strata, from a state of the play on.
fn started(alloc: Global, replay: &Replay, state: &State) -> Result<Player, OutOfMemory>
    requires first { IsFirstIf replay.now state.now.commits }
    requires bounded { IsBounded (log_of replay.now) (state_in state.now) }
    requires request { IsSoundIf (length state.now.memory) state.now.request }
    ensures from { IfOk result (λ player. player ≡ started_from (replay_setup replay.now) (state_in state.now)) }
    ensures at { IfOk result (λ player. IsReplaying player state.now) }
{
    match replay {
        Replay::Log { log, .. } => Player::at(alloc, log, replay.interval(), state),
        Replay::Strata(strata) => Player::of_strata(alloc, strata, state),
    }
}
