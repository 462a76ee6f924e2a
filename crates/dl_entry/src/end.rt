//! How a sphere ends.

/// Why a replay left its log.
#[derive(Clone, Copy, Debug, PartialEq, Eq)]
pub enum Why {
    /// The log names a thread that doesn't exist or isn't live.
    NoThread,
    /// The chunk met a serial instruction early: the logged size, and the instructions run.
    Short(u32, u32),
    /// A serial step is logged, and the next instruction isn't serial.
    NotSerial,
    /// The next input record is missing or doesn't fit.
    Input,
    /// An interrupt is logged where the thread takes none.
    Interrupt,
    /// The next DMA record is missing or doesn't fit.
    Dma,
    /// A size over 0 is logged for a DMA or a serial step.
    SizeOfSerial(u32),
    /// The log has more than the replay used.
    LeftOver,
}

/// How a replay ended: with all its commits, their number; with those of its interval, the number of commits up to there; or
/// diverged at a commit, by its index.
#[derive(Clone, Copy, Debug, PartialEq, Eq)]
pub enum End {
    Complete(u32),
    At(u32),
    Diverged(u32, Why),
}

/// What a summary says of a sphere: its commits, or where and why its replay diverged. Of the replay of an interval it says
/// how many of its commits are done, and how it ended.
#[derive(Clone, Copy, Debug, PartialEq, Eq)]
pub enum SphereLine {
    Record(u32),
    Plain(u32),
    Complete(u32),
    Diverged(u32, Why),
    Interval(u32, End),
}
