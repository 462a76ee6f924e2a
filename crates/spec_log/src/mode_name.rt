//! The modes of recording.
ghost use Rattle.std.specs.Prelude.{◌≡◌};
ghost use Rattle.spec_log.specs.Mode.{mode_code};

/// What a log keeps of the order and the sizes of commits.
#[derive(Clone, Copy, Debug, PartialEq, Eq)]
pub enum ModeName {
    /// The order, and the size of every commit.
    OrderSize,
    /// The order, and the sizes of short chunks.
    OrderOnly,
    /// No order, since threads take turns, and the sizes of short chunks.
    Picolog,
}

impl ModeName {
    /// The mode as a log's bytes have it.
    pub fn code(self) -> u8
        ensures { result ≡ mode_code self }
    {
        self as u8
    }
}
