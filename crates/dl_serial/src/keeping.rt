//! States of a play, kept after every so many commits.
ghost use Rattle.std.specs.Prelude.{◌≡◌, ◌≤◌, IfOk};
ghost use Rattle.dl_serial.specs.Keeping.{AreKept};

use crate::player::Player;
use dl_elf::Image;
use dl_entry::OutOfMemory;
use dl_kernel::State;
use dl_mem::{Memory, Snapshot};
use dl_mode::{Noting, OrderAndSize, OrderOnly, PicoLog};
use spec_log::{Log, ModeName};
use std::alloc::Global;

/// Plays a log on its image to its end, and keeps the states before the first commit, after `every` commits, after twice as
/// many, and so on, as far as the play goes.
pub fn keep_states(
    alloc: Global,
    image: &Image,
    log: &Log,
    every: u32,
) -> Result<Vec<State<Snapshot>>, OutOfMemory>
    requires { 1 ≤ every }
    ensures { let i = image.now in
        IfOk result (λ kept. AreKept log.now i.bytes i.entry every kept.items) }
{
    match log.parts().mode {
        ModeName::OrderSize => keep_in::<OrderAndSize>(alloc, image, log, every),
        ModeName::OrderOnly => keep_in::<OrderOnly>(alloc, image, log, every),
        ModeName::Picolog => keep_in::<PicoLog>(alloc, image, log, every),
    }
}

fn keep_in<M: Noting>(
    alloc: Global,
    image: &Image,
    log: &Log,
    every: u32,
) -> Result<Vec<State<Snapshot>>, OutOfMemory>
    requires mode { log.now.mode ≡ M.mode }
    requires some { 1 ≤ every }
    ensures { let i = image.now in
        IfOk result (λ kept. AreKept log.now i.bytes i.entry every kept.items) }
{
    let first = State::first(Memory::new(alloc, image)?, image.entry());
    let mut player = Player::<M>::at(alloc, first, log)?;
    let mut kept = Vec::new(alloc);
    let mut next = 0;
    while u64::from(player.commits()) == next {
        kept.push(player.keep()?)?;
        player.play_on(every)?;
        next += u64::from(every);
    }
    Ok(kept)
}
