//! What a plan has read, and what a command has that names an image and a log.
use dl_elf::Image;
use dl_logfmt::Log;
use dl_logio::LogRead;
use dl_plan::{Epochs, Mode};
use dl_scriptio::ScriptRead;

/// What a plan has read.
#[derive(Drop)]
pub struct Inputs {
    pub schedule: ScheduleInputs,
    /// The devices' input.
    pub input: Vec<u8>,
    pub spheres: Vec<SphereInputs>,
}

/// Where the events come from.
#[derive(Drop)]
pub enum ScheduleInputs {
    /// What the file of a script says.
    Script(ScriptRead),
    /// So many, which are drawn from the plan's seed.
    Drawn(u32),
}

/// What a sphere has read, and the bytes of its memory.
#[derive(Drop)]
pub struct SphereInputs {
    pub image: Vec<u8>,
    pub memory: u32,
    pub role: RoleInputs,
}

/// What the role of a sphere has read.
#[derive(Drop)]
pub enum RoleInputs {
    Plain,
    Record {
        version: u8,
        mode: Mode,
        epochs: Option<Epochs>,
    },
    /// What the file of a log says, and which of its commits the plan names: from which on, and up to which.
    Replay {
        log: LogRead,
        from: Option<u32>,
        to: Option<u32>,
    },
    /// The bytes of strata.
    InStrata {
        strata: Vec<u8>,
    },
}

/// An image and a log, which is played on it.
#[derive(Drop)]
pub struct PlaybackRead {
    pub image: Image,
    pub log: Log,
}
