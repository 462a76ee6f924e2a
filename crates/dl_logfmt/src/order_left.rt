//! What is left of the order.
ghost use Rattle.std.specs.Prelude.{◌≡◌, ◌<◌, ◌^◌, length, All};
ghost use Rattle.spec_log.specs.Bytes.{half as half_of, order_bytes};
ghost use Rattle.spec_log.specs.Log.{IsActor};
ghost use Rattle.spec_log.specs.Versions.{new_threads};
ghost use Rattle.dl_logfmt.specs.Writing.{IsNextUnit};

use crate::unit::Unit;
use dl_entry::{Actor, DMA_HALF};
use std::marker::Model;

/// The actors that are not begun, and whether their count is, in a log of this version; seen as the bytes that are left.
#[derive(Drop)]
pub struct OrderLeft<'a> {
    version: u8,
    begun: bool,
    actors: &'a [Actor],
}

impl<'a> Model for OrderLeft<'a> {
    ghost use Rattle.std.specs.Prelude.{ℕ, ◌<◌, ◌^◌, List, length, All};
    ghost use Rattle.spec_log.specs.Log.{IsActor};
    ghost use Rattle.spec_log.specs.Versions.{new_threads};
    ghost use Rattle.dl_logfmt.specs.Writing.{order_left};

    ghost Value = { List ℕ };

    ghost view = { λ o. order_left o.version o.begun o.actors.now };

    ghost invariant = { λ o. (length o.actors.now < 2 ^ 32) × All (IsActor (new_threads o.version)) o.actors.now };
}

impl<'a> OrderLeft<'a> {
    pub fn new(version: u8, actors: &'a [Actor]) -> OrderLeft<'a>
        requires few { length actors.now < 2 ^ 32 }
        requires each { All (IsActor (new_threads version)) actors.now }
        ensures { result ≡ order_bytes version actors.now }
    {
        OrderLeft {
            version,
            begun: false,
            actors,
        }
    }

    /// The next unit, unless nothing is left.
    pub fn begin(&mut self) -> Option<Unit<'a>>
        ensures { IsNextUnit self.old result self.new }
    {
        if !self.begun {
            self.begun = true;
            return Some(Unit::number(self.actors.len() as u32));
        }
        match (self.version, self.actors) {
            (_, []) => None,
            (1, [last]) => {
                self.actors = &[];
                Some(Unit::byte(half(*last)))
            }
            (1, [low, high, rest @ ..]) => {
                self.actors = rest;
                Some(Unit::byte(half(*low) + 16 * half(*high)))
            }
            (_, [actor, rest @ ..]) => {
                self.actors = rest;
                Some(Unit::byte(actor.code()))
            }
        }
    }
}

/// An actor in half a byte.
fn half(actor: Actor) -> u8
    ensures { result ≡ half_of actor }
{
    match actor {
        Actor::Thread(number) => number,
        Actor::Dma => DMA_HALF,
    }
}
