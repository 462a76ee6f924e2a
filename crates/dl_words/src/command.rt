//! Commands, with their operands.
use crate::interval::Interval;
use crate::playback::Playback;
use crate::query::Query;

/// What the words ask for.
#[derive(Clone, Copy, PartialEq, Eq)]
pub enum Command<'a> {
    /// `run PLAN`
    Run {
        plan: &'a str,
    },
    /// `inspect LOG`
    Inspect {
        log: &'a str,
    },
    /// `walk IMAGE MEMORY LOG`
    Walk(Playback<'a>),
    /// `interval IMAGE MEMORY LOG EVERY I J`
    Interval(Interval<'a>),
    /// `tail NAME`
    Tail {
        name: &'a str,
    },
    /// `watch IMAGE MEMORY LOG ADDR`, and `who` and `when` with a word more
    Query(Query<'a>),
    /// `make NUMBER NAME`
    Make {
        number: u32,
        name: &'a str,
    },
    /// `drill NUMBER`
    Drill {
        number: u32,
    },
    /// `asm SOURCE NAME`
    Asm {
        source: &'a str,
        name: &'a str,
    },
    /// `migrate LOG NAME`
    Migrate {
        log: &'a str,
        name: &'a str,
    },
    /// `strata IMAGE MEMORY LOG NAME`
    Strata {
        playback: Playback<'a>,
        name: &'a str,
    },
}
