//! The parts of a thread, what a load read, and why an instruction is serial.

/// Whether a thread is live, or how it stopped.
#[derive(Clone, Copy, Debug, PartialEq, Eq)]
pub enum ThreadStatus {
    Live,
    /// It ended itself, with this code.
    Ended(u32),
    /// It stopped at an instruction that cannot be run; this is the ISA's number for the cause.
    Fault(u8),
}

/// All of a thread: its pc, its registers x0 to x31, the word address that it has reserved, its interrupt handler (0 if
/// none) with the mask and the values saved while it runs, its status and the number of its commits.
#[derive(Clone, Copy, Debug, PartialEq, Eq)]
pub struct Parts {
    pub pc: u32,
    pub x: [u32; 32],
    pub reservation: Option<u32>,
    pub handler: u32,
    pub mask: bool,
    pub saved_pc: u32,
    pub saved_a0: u32,
    pub saved_a1: u32,
    pub status: ThreadStatus,
    pub commits: u32,
}

/// What a load read: its address, and the value as the register takes it.
#[derive(Clone, Copy, Debug, PartialEq, Eq)]
pub struct Load {
    pub addr: u32,
    pub value: u32,
}

/// Why an instruction is serial: it is not part of a chunk, but a step of its own.
#[derive(Clone, Copy, Debug, PartialEq, Eq)]
pub enum Kind {
    Call,
    Break,
    DeviceLoad,
    DeviceStore,
    /// It cannot be run; this is the ISA's number for the cause.
    Fault(u8),
}
