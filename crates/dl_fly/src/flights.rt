//! The slots for flights, all of which `new` makes. No other call takes memory.
ghost use Rattle.std.specs.Prelude.{◌≡◌, ◌<◌, ◌≤◌, false, None, Some, IfOk, length, option_map, replicate};
ghost use Rattle.spec_engine.specs.Flights.{IsInside, IsOfSize, at, bounces, deliver, drain, fill, first_slot, free_slot, is_full, retire};

use crate::flight::Flight;
use crate::slot;
use dl_mem::Memory;
use dl_sig::Sig;
use spec_engine::answers::{Deliver, Drain, Retire};
use std::alloc::{AllocError, Global};
use std::marker::Model;

/// From 1 to 8 slots, each free or with its flight; flights are told to from 1 to 8 cores.
#[derive(Drop)]
pub struct Flights<G: Sig> {
    cores: u8,
    slots: Vec<Option<Flight<G>>>,
    // whether each slot is free, which an instruction asks more often than slots change
    is_empty: bool,
}

impl<G: Sig> Model for Flights<G> {
    ghost use Rattle.std.specs.Coded.{codes};
    ghost use Rattle.spec_engine.specs.Signatures.{places_code};
    ghost use Rattle.spec_engine.specs.Flights.{Flights};
    ghost use Rattle.dl_fly.specs.Slots.{AreSlots};

    ghost Value = { Flights };

    ghost coded = { Prim.hlevel (codes, places_code) };

    ghost view = { λ f. record { cores = f.cores; slots = f.slots.items } };

    ghost invariant = { λ f. AreSlots f.cores f.slots.items f.is_empty };
}

impl<G: Sig> Flights<G> {
    ghost use Rattle.dl_fly.specs.Slots.{set_slot};

    /// `window` free slots, from 1 to 8, for flights that are told to `cores` cores, from 1 to 8.
    #[tactic(auto, using(crate::proofs::Free::new_free))]
    pub fn new(alloc: Global, window: u8, cores: u8) -> Result<Flights<G>, AllocError>
        requires some_slot { 1 ≤ window }
        requires most_slots { window ≤ 8 }
        requires some_core { 1 ≤ cores }
        requires most_cores { cores ≤ 8 }
        ensures { IfOk result (λ f. f ≡ record { cores = cores; slots = replicate window None }) }
    {
        let mut slots = Vec::with_capacity(alloc, window as usize)?;
        for _ in 0..window {
            slots.push_reserved(None);
        }
        Ok(Flights {
            cores,
            slots,
            is_empty: true,
        })
    }

    /// How many slots there are, from 1 to 8.
    pub fn window(&self) -> u8
        ensures value { result ≡ length self.now.slots }
        ensures least { 1 ≤ result }
        ensures most { result ≤ 8 }
    {
        self.slots.len() as u8
    }

    /// The slots.
    pub fn slots(&self) -> &[Option<Flight<G>>]
        ensures value { result.now ≡ self.now.slots }
        ensures most { length self.now.slots ≤ 8 }
    {
        &self.slots
    }

    /// The flight in slot `k`, if one is there.
    pub fn get(&self, k: u8) -> Option<&Flight<G>>
        requires { k < length self.now.slots }
        ensures { option_map (λ f. f.now) result ≡ at self.now.slots k }
    {
        self.slots[k as usize].as_ref()
    }

    /// Whether no slot is free.
    pub fn is_full(&self) -> bool
        ensures { result ≡ is_full self.now.slots }
    {
        slot::free(&self.slots).is_none()
    }

    /// The lowest slot whose flight holds up the reading of a line by a core, which was told of it.
    #[inline(always)]
    #[tactic(auto, using(crate::proofs::Free::none_of_free))]
    pub fn holder(&self, core: u8, line: u32) -> Option<u8>
        ensures { result ≡ first_slot (bounces core line) self.now.slots }
    {
        if self.is_empty {
            return None;
        }
        let k = slot::holder(&self.slots, core, line)?;
        Some(k as u8)
    }

    /// Puts a flight into the lowest free slot, and gives that slot's number.
    pub fn add(&mut self, flight: Flight<G>) -> u8
        requires { is_full self.old.slots ≡ false }
        ensures slot { Some result ≡ free_slot self.old.slots }
        ensures added { self.new ≡ record self.old { slots = fill flight self.old.slots } }
    {
        match slot::free(&self.slots) {
            Some(k) => {
                self.slots[k] = Some(flight);
                self.is_empty = false;
                k as u8
            }
            None => unreachable!(),
        }
    }

    /// The first word left in slot `k` goes to the memory of the flight's sphere.
    pub fn drain(&mut self, k: u8, mem: &mut Memory) -> Drain
        requires slot { k < length self.old.slots }
        requires inside { IsInside (length mem.old) (at self.old.slots k) }
        ensures reply { result ≡ (drain mem.old (at self.old.slots k)).reply }
        ensures slots { self.new ≡ set_slot k (drain mem.old (at self.old.slots k)).slot self.old }
        ensures memory { mem.new ≡ (drain mem.old (at self.old.slots k)).memory }
    {
        slot::drain(&mut self.slots[k as usize], mem)
    }

    /// A core, whose chunk has these reads and writes, is told of the flight in slot `k`. `Squashed`: the flight hits them.
    pub fn deliver(&mut self, core: u8, k: u8, reads: &G, writes: &G) -> Deliver
        requires core { core < self.old.cores }
        requires slot { k < length self.old.slots }
        requires reads { IsOfSize (G.marks reads.now).bits (at self.old.slots k) }
        requires writes { IsOfSize (G.marks writes.now).bits (at self.old.slots k) }
        ensures reply { let d = deliver core (G.marks reads.now) (G.marks writes.now) (at self.old.slots k) in
            result ≡ d.reply }
        ensures slots { let d = deliver core (G.marks reads.now) (G.marks writes.now) (at self.old.slots k) in
            self.new ≡ set_slot k d.slot self.old }
    {
        slot::deliver(&mut self.slots[k as usize], core, reads, writes)
    }

    /// The slot becomes free, if no word is left in its flight and each core was told.
    pub fn retire(&mut self, k: u8) -> Retire
        requires { k < length self.old.slots }
        ensures reply { result ≡ (retire self.old.cores (at self.old.slots k)).reply }
        ensures slots { self.new ≡ set_slot k (retire self.old.cores (at self.old.slots k)).slot self.old }
    {
        let reply = slot::retire(&mut self.slots[k as usize], self.cores);
        self.is_empty = slot::are_free(&self.slots);
        reply
    }
}
