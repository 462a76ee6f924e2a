//! Where the events of a run come from.
use dl_event::Events;

/// The events of a run.
#[derive(Drop)]
pub enum Schedule {
    /// These.
    Script(Events),
    /// This many, drawn from the seed one at a time.
    Seeded { seed: u64, events: u32 },
}
