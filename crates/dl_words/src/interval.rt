//! A slice of a log, as words ask for it.
ghost use Rattle.std.specs.Prelude.{◌≤◌, ◌^◌};

use crate::playback::Playback;

/// The commits of the log from that of number `from` up to but not that of number `to`. The log is played on the image, and a
/// state of its play is kept each `every` commits, 1 to 2^24.
#[derive(Clone, Copy, PartialEq, Eq)]
pub struct Interval<'a> {
    pub playback: Playback<'a>,
    pub every: u32,
    pub from: u32,
    pub to: u32,
    pub ghost kept: { (1 ≤ every) × (every ≤ 2 ^ 24) },
    pub ghost order: { from ≤ to },
}
