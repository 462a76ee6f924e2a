//! The ends of the program.
ghost use Rattle.std.specs.Prelude.{◌≡◌};
ghost use Rattle.spec_program.specs.Statuses.{code_of};

/// How the program ended.
#[derive(Clone, Copy, Debug, PartialEq, Eq)]
pub enum Status {
    /// What was asked for is done.
    Done,
    /// It is done, and a replayed sphere diverged.
    Diverged,
    /// The words mean no command.
    Usage,
    /// The plan breaks a rule.
    Plan,
    /// An image breaks a rule.
    Image,
    /// The script, or a log, is outside its grammar.
    Grammar,
    /// A file could not be read or written.
    Fault,
    /// The output could not be written.
    Sink,
    /// Memory ran out.
    Memory,
    /// A line of the source breaks a rule.
    Source,
    /// A file that is to be read is not there.
    Absent,
}

impl Status {
    /// The exit status of the process.
    pub fn code(self) -> u8
        ensures { result ≡ code_of self }
    {
        match self {
            Status::Done => 0,
            Status::Diverged => 1,
            Status::Usage => 2,
            Status::Plan => 3,
            Status::Image => 4,
            Status::Grammar => 5,
            Status::Fault => 6,
            Status::Sink => 7,
            Status::Memory => 8,
            Status::Source => 9,
            Status::Absent => 10,
        }
    }
}

/// Why a command is refused, before anything is done.
#[derive(Clone, Copy, Debug, PartialEq, Eq)]
pub enum Refusal {
    Usage,
    Plan,
    Image,
    Grammar,
    Source,
    Absent,
}
