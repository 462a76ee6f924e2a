//! The walk over a log.
ghost use Rattle.std.specs.Prelude.{◌≡◌, ◌≤◌, IfOk};
ghost use Rattle.spec_play.specs.States.{state_after, walked_from};
ghost use Rattle.spec_play.specs.Resuming.{IsBounded, IsStateOf};
ghost use Rattle.spec_play.specs.Walks.{walked};
ghost use Rattle.spec_query.specs.Stores.{stores_in};
ghost use Rattle.dl_kernel.specs.States.{state_in};
ghost use Rattle.dl_serial.specs.Starts.{CanGoOn};
ghost use Rattle.dl_serial.specs.Walked.{state_from, stores_from, walked_in};

use crate::player::Player;
use crate::walked::Walked;
use dl_elf::Image;
use dl_entry::OutOfMemory;
use dl_kernel::State;
use dl_mem::Memory;
use dl_mode::{Noting, OrderAndSize, OrderOnly, PicoLog};
use spec_log::{Log, ModeName};
use std::alloc::Global;

/// Plays a log on its image, up to `to` whole commits, or to its end if that comes first. With `to` commits done, if the log
/// has more, the end isn't looked at. Image and log are only read.
pub fn walk(alloc: Global, image: &Image, log: &Log, to: u32) -> Result<Walked, OutOfMemory>
    ensures walked { let i = image.now in
        IfOk result (λ w. walked_in w ≡ walked log.now i.bytes i.entry to) }
    ensures stores { let i = image.now in
        IfOk result (λ w. w.stores ≡ stores_in log.now i.bytes i.entry to) }
    ensures state { let i = image.now in
        IfOk result (λ w. state_in w.state ≡ state_after log.now i.bytes i.entry to) }
{
    let state = State::first(Memory::new(alloc, image)?, image.entry());
    play_from(alloc, state, log, to)
}

/// Plays a log on from a state of its play, until `to` of its commits are done, or to its end if that comes first. What is
/// left has only the commits since the state.
pub fn play_from(alloc: Global, from: State, log: &Log, to: u32) -> Result<Walked, OutOfMemory>
    requires state { IsStateOf log.now (state_in from) }
    requires order { from.commits ≤ to }
    ensures walked { IfOk result (λ w. walked_in w ≡ walked_from log.now (state_in from) to) }
    ensures stores { IfOk result (λ w. w.stores ≡ stores_from log.now (state_in from) to) }
    ensures state { IfOk result (λ w. state_in w.state ≡ state_from log.now (state_in from) to) }
{
    play_state(alloc, from, log, to)
}

/// Plays a log on from a state that need not be of its own play.
pub(crate) fn play_state(
    alloc: Global,
    from: State,
    log: &Log,
    to: u32,
) -> Result<Walked, OutOfMemory>
    requires state { CanGoOn log.now (state_in from) }
    requires order { from.commits ≤ to }
    ensures walked { IfOk result (λ w. walked_in w ≡ walked_from log.now (state_in from) to) }
    ensures stores { IfOk result (λ w. w.stores ≡ stores_from log.now (state_in from) to) }
    ensures state { IfOk result (λ w. state_in w.state ≡ state_from log.now (state_in from) to) }
    ensures bounded { IfOk result (λ w. IsBounded log.now (state_in w.state)) }
{
    match log.parts().mode {
        ModeName::OrderSize => play_in::<OrderAndSize>(alloc, from, log, to),
        ModeName::OrderOnly => play_in::<OrderOnly>(alloc, from, log, to),
        ModeName::Picolog => play_in::<PicoLog>(alloc, from, log, to),
    }
}

fn play_in<M: Noting>(alloc: Global, from: State, log: &Log, to: u32) -> Result<Walked, OutOfMemory>
    requires mode { log.now.mode ≡ M.mode }
    requires state { CanGoOn log.now (state_in from) }
    requires order { from.commits ≤ to }
    ensures walked { IfOk result (λ w. walked_in w ≡ walked_from log.now (state_in from) to) }
    ensures stores { IfOk result (λ w. w.stores ≡ stores_from log.now (state_in from) to) }
    ensures state { IfOk result (λ w. state_in w.state ≡ state_from log.now (state_in from) to) }
    ensures bounded { IfOk result (λ w. IsBounded log.now (state_in w.state)) }
{
    let more = to - from.commits;
    let mut player = Player::<M>::at(alloc, from, log)?;
    player.play_on(more)?;
    Ok(player.into_walked(to))
}
