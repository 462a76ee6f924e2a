//! What a plan says of a sphere.
ghost use Rattle.std.specs.Prelude.{◌≡◌, option_map};
ghost use Rattle.dl_sphere.specs.Setups.{begun_as, begun_of, diverged_in, interval_in};

use dl_elf::Image;
use dl_entry::Why;
use dl_kernel::State;
use dl_replay::ReadyStrata;
use spec_log::{Log, ModeName};
use spec_play::Interval;
use std::rc::Rc;

/// A sphere's role: plain, recorded in a version of logs, 1 or 2, and a mode, or replayed. In epochs only the last part of a
/// recording of version 2 is kept.
#[derive(Drop)]
pub enum Role {
    Plain,
    Record {
        version: u8,
        mode: ModeName,
        epochs: Option<Epochs>,
    },
    Replay(Replay),
}

/// The epochs of a recording: the commits of each, 1 to 2^24, and how many of them are kept, 1 to 64.
#[derive(Clone, Copy)]
pub struct Epochs {
    pub size: u32,
    pub keep: u32,
}

/// What is replayed.
#[derive(Drop)]
pub enum Replay {
    /// All commits of a log, or those of an interval, where that begins.
    Log { log: Log, begun: Option<Begun> },
    /// All commits of strata, in any order that they allow.
    Strata(Rc<ReadyStrata>),
}

/// Where an interval of a log begins: the state of the log's play on the sphere's image before the interval's first commit.
/// If the play diverges before that, the state is the one where it does, with the reason.
#[derive(Drop)]
pub struct Begun {
    pub interval: Interval,
    pub state: State,
    pub diverged: Option<Why>,
}

/// A sphere before it starts.
#[derive(Drop)]
pub struct SphereSetup {
    pub image: Image,
    pub role: Role,
}

impl Role {
    /// Where an interval begins, if one is replayed.
    pub fn begun(&self) -> Option<&Begun>
        ensures { option_map (λ b. b.now) result ≡ begun_as self.now }
    {
        match self {
            Role::Plain | Role::Record { .. } => None,
            Role::Replay(replay) => replay.begun(),
        }
    }
}

impl Replay {
    /// Where an interval begins, if one is replayed.
    pub fn begun(&self) -> Option<&Begun>
        ensures { option_map (λ b. b.now) result ≡ begun_of self.now }
    {
        match self {
            Replay::Log { begun, .. } => begun.as_ref(),
            Replay::Strata(_) => None,
        }
    }

    /// The interval that is replayed, if not all commits are.
    pub fn interval(&self) -> Option<Interval>
        ensures { result ≡ interval_in (begun_of self.now) }
    {
        match self.begun() {
            Some(begun) => Some(begun.interval),
            None => None,
        }
    }

    /// Why the log's play diverges before its interval, if it does.
    pub fn diverged(&self) -> Option<Why>
        ensures { result ≡ diverged_in (begun_of self.now) }
    {
        match self.begun() {
            Some(begun) => begun.diverged,
            None => None,
        }
    }
}
