//! The stages of a log.
ghost use Rattle.std.specs.Prelude.{◌≡◌};
ghost use Rattle.dl_logfmt.specs.Parsing.{next};

/// The stages in which a log is read, in their order, and its end.
#[derive(Clone, Copy, PartialEq, Eq)]
pub enum StageName {
    Magic,
    Version,
    Mode,
    Threads,
    ChunkSize,
    Count,
    Order,
    Sizes,
    Interrupts,
    Inputs,
    Dmas,
    End,
}

impl StageName {
    /// The stage after this one.
    pub fn next(self) -> StageName
        ensures { result ≡ next self }
    {
        match self {
            StageName::Magic => StageName::Version,
            StageName::Version => StageName::Mode,
            StageName::Mode => StageName::Threads,
            StageName::Threads => StageName::ChunkSize,
            StageName::ChunkSize => StageName::Count,
            StageName::Count => StageName::Order,
            StageName::Order => StageName::Sizes,
            StageName::Sizes => StageName::Interrupts,
            StageName::Interrupts => StageName::Inputs,
            StageName::Inputs => StageName::Dmas,
            StageName::Dmas | StageName::End => StageName::End,
        }
    }
}
