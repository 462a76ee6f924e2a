//! How often each reply was given.
ghost use Rattle.std.specs.Prelude.{◌≡◌, ◌+◌, ◌<◌, ◌^◌};

use crate::reply_name::ReplyName;

/// The number of events, and of the replies of each name, by their places.
#[derive(Clone, Copy, Debug, PartialEq, Eq)]
pub struct Counts {
    pub events: u64,
    pub replies: [u64; ReplyName::COUNT],
}

impl Counts {
    ghost use Rattle.dl_entry.specs.Counts.{no_counts, count_of, counted};
    /// No event so far.
    pub fn new() -> Counts
        ensures { result ≡ no_counts }
    {
        Counts {
            events: 0,
            replies: [0; ReplyName::COUNT],
        }
    }

    /// How often a reply of this name was given.
    pub fn of(&self, name: ReplyName) -> u64
        ensures { result ≡ count_of self.now name }
    {
        self.replies[name.place()]
    }

    /// Counts an event that was answered by this name.
    pub fn note(&mut self, name: ReplyName)
        requires events { self.old.events + 1 < 2 ^ 64 }
        requires replies { count_of self.old name + 1 < 2 ^ 64 }
        ensures { self.new ≡ counted self.old name }
    {
        self.events += 1;
        self.replies[name.place()] += 1;
    }
}
