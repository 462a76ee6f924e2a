//! What a plan asks for.

/// An accepted plan. Its numbers are in their limits, and its names do not conflict.
#[derive(Debug, Drop)]
pub struct Plan {
    pub sizes: Sizes,
    /// Where the events come from.
    pub schedule: Schedule,
    /// The file of the device's input; without one it has no bytes.
    pub input: Option<String>,
    /// The file that takes the console's bytes.
    pub console: Option<String>,
    /// The file that takes the report.
    pub report: Option<String>,
    /// The spheres, 1 to 8.
    pub spheres: Vec<Sphere>,
}

/// The numbers of a plan's machine.
#[derive(Clone, Copy, Debug)]
pub struct Sizes {
    /// Cores of the machine, 1 to 8.
    pub cores: u8,
    /// Instructions in a standard chunk, 16 to 65536; if a log of version 1 is recorded, at most 4096.
    pub chunk: u32,
    /// Words in a write buffer, 1 to 4096.
    pub buffer: u32,
    /// Commits in flight, 1 to 8.
    pub window: u8,
    /// Chunks that a core may have in flight, 1 or 2.
    pub depth: u8,
    /// Bits of a signature, a power of two from 64 to 2048.
    pub signature: u32,
    /// The seed of the devices' random bytes and of a schedule that is drawn, below 2^63.
    pub seed: u64,
}

/// Where a run's events come from.
#[derive(Debug, Drop)]
pub enum Schedule {
    /// The script in the file of that name.
    Script(String),
    /// So many events, up to 2^24, that are drawn from the plan's seed.
    Seeded { events: u32 },
}

/// One sphere: a program in a memory of its own.
#[derive(Debug, Drop)]
pub struct Sphere {
    /// The file of the program.
    pub image: String,
    /// Bytes of memory, a multiple of 4096 up to 2^24.
    pub memory: u32,
    pub role: Role,
    /// The file that takes the account.
    pub account: Option<String>,
}

/// What a sphere does.
#[derive(Debug, Drop)]
pub enum Role {
    /// It runs, and no log is written or read.
    Plain,
    /// It is recorded into the file `log`, in a log of that version, 1 or 2. In epochs only the last part of a log of version 2
    /// is kept, with the state in which it begins.
    Record {
        mode: Mode,
        version: u8,
        log: String,
        epochs: Option<Epochs>,
    },
    /// It replays the log in the file `log`, in the log's own mode, from the commit of number `from` up to but not that of
    /// number `to`. If one of them is there, the other is as if it were 0, or the log's number of commits; without both the
    /// whole log is replayed. Each is at most 2^24, and `from` at most `to`.
    Replay {
        log: String,
        from: Option<u32>,
        to: Option<u32>,
    },
    /// It replays the strata in the file `strata`.
    InStrata {
        strata: String,
    },
}

/// The epochs of a recording: the commits of each, 1 to 2^24, and how many of them are kept, 1 to 64.
#[derive(Clone, Copy, Debug, PartialEq, Eq)]
pub struct Epochs {
    pub size: u32,
    pub keep: u32,
}

/// What a log keeps of the chunks and of their order.
#[derive(Clone, Copy, Debug, PartialEq, Eq)]
pub enum Mode {
    OrderSize,
    OrderOnly,
    Picolog,
}
