//! The chunks of one core: an older, and at depth 2 at most one younger of the same thread, which runs before the older has
//! committed. `new` makes room for them; no other call takes memory.
ghost use Rattle.std.specs.Prelude.{◌≡◌, ◌+◌, ◌≤◌, ◌<◌, ◌^◌, false, true, not, IfOk, IsSome, option_map};
ghost use Rattle.spec_engine.specs.Chunks.{fresh, may_follow};
ghost use Rattle.spec_engine.specs.Flights.{is_none};
ghost use Rattle.spec_engine.specs.Signatures.{is_size, nothing};

use crate::base::Laid;
use crate::chunk::Chunk;
use dl_fly::Flights;
use dl_mem::Memory;
use dl_sig::Sig;
use dl_thread::Thread;
use spec_engine::answers::{CutReply, How, Stepped};
use std::alloc::{AllocError, Global};
use std::marker::Model;
use std::mem;

/// One of the two chunks.
#[derive(Clone, Copy, Debug, PartialEq, Eq)]
pub enum Which {
    Older,
    Younger,
}

/// An older chunk, and perhaps a younger one, which runs on the memory with the older one's words over it.
#[derive(Drop)]
pub struct Pair<G: Sig> {
    older: Chunk<G>,
    // at depth 2 the younger one, or room for it
    second: Option<Chunk<G>>,
    followed: bool,
}

impl<G: Sig> Model for Pair<G> {
    ghost use Rattle.std.specs.Coded.{codes};
    ghost use Rattle.spec_engine.specs.Signatures.{places_code};
    ghost use Rattle.dl_chunk.specs.Pairs.{IsAlike, Pair, pair_of};

    ghost Value = { Pair };

    ghost coded = { Prim.hlevel (codes, places_code) };

    ghost view = { λ p. pair_of p.older p.second p.followed };

    ghost invariant = { λ p. IsAlike p.older p.second };
}

impl<G: Sig> Pair<G> {
    ghost use Rattle.dl_chunk.specs.Pairs.{alone, begins_younger, can_step, engine_in, new_pair, pair_cut, pair_squash, pair_step, promoted, with_older};

    /// Room for `depth` chunks, 1 or 2, of `s` instructions, from 1 to 65,536, and `c` words, from 1 to 4,096, each, with
    /// signatures of `bits` bits, a power of two from 64 to 2,048. The older chunk has run nothing.
    pub fn new(alloc: Global, s: u32, c: u32, bits: u32, depth: u8) -> Result<Pair<G>, AllocError>
        requires some_instruction { 1 ≤ s }
        requires most_instructions { s ≤ 65536 }
        requires some_word { 1 ≤ c }
        requires most_words { c ≤ 4096 }
        requires bits { is_size bits ≡ true }
        requires some_chunk { 1 ≤ depth }
        requires most_chunks { depth ≤ 2 }
        ensures { IfOk result (λ p. p ≡ new_pair s c bits depth) }
    {
        let older = Chunk::new(alloc, s, c, bits)?;
        let second = if depth == 2 {
            Some(Chunk::new(alloc, s, c, bits)?)
        } else {
            None
        };
        Ok(Pair {
            older,
            second,
            followed: false,
        })
    }

    /// Begins an older chunk of a sphere's thread that may run `limit` instructions. `halves`: each fourth squash halves the
    /// limit. A younger one is abandoned.
    pub fn begin(&mut self, sphere: u8, thread: &Thread, limit: u32, halves: bool)
        requires least { 1 ≤ limit }
        requires most { limit ≤ self.old.most }
        ensures { let bits = self.old.older.reads.bits in
            self.new ≡ alone (fresh bits sphere thread.now limit halves) self.old }
    {
        self.older.begin(sphere, thread, limit, halves);
        self.followed = false;
    }

    /// Whether a step runs a chunk: one is open, or a younger one begins.
    pub fn can_step(&self) -> bool
        ensures { result ≡ can_step self.now }
    {
        self.older.is_open()
            || match self.younger() {
                Some(younger) => younger.is_open(),
                None => self.begins_younger(),
            }
    }

    /// Whether a step begins a younger chunk. In a replay the caller sees to it that none begins after an older one that was
    /// closed by Overflow or Cut, which is a piece of a commit.
    pub fn begins_younger(&self) -> bool
        ensures { result ≡ begins_younger self.now }
    {
        self.younger().is_none() && self.second.is_some() && may_follow(self.older.closed())
    }

    /// Runs one instruction of the older chunk while that is open, else of the younger one, which is begun with this limit if
    /// there is none.
    #[tactic(auto, using(crate::proofs::SameSize::step_bits))]
    pub fn step(&mut self, mem: &Memory, flights: &Flights<G>, core: u8, limit: u32) -> Stepped
        requires runs { can_step self.old ≡ true }
        requires least { begins_younger self.old ≡ true → 1 ≤ limit }
        requires most { begins_younger self.old ≡ true → limit ≤ self.old.most }
        requires commits { begins_younger self.old ≡ true → self.old.older.done.thread.commits + 1 < 2 ^ 32 }
        ensures reply { result ≡ (pair_step mem.now flights.now.slots core limit self.old).reply }
        ensures pair { self.new ≡ (pair_step mem.now flights.now.slots core limit self.old).pair }
        ensures size { self.new.older.reads.bits ≡ self.old.older.reads.bits }
    {
        if self.older.is_open() {
            return self.older.step(mem, flights, core);
        }
        let Some(younger) = &mut self.second else {
            unreachable!()
        };
        if !self.followed {
            younger.follow(&self.older, limit);
            self.followed = true;
        }
        let base = Laid {
            memory: mem,
            older: &self.older,
        };
        younger.step_over(&base, flights, core)
    }

    /// Closes the younger chunk, or the older where there is no younger, if it is open and has run an instruction.
    pub fn cut(&mut self) -> CutReply
        ensures reply { result ≡ (pair_cut self.old).reply }
        ensures pair { self.new ≡ (pair_cut self.old).pair }
    {
        match &mut self.second {
            Some(younger) if self.followed => younger.cut(),
            _ => self.older.cut(),
        }
    }

    /// Puts a chunk back to where it began. With the older one the younger is abandoned.
    pub fn squash(&mut self, which: Which)
        requires { which ≡ Which.Younger → IsSome self.old.younger }
        ensures { self.new ≡ pair_squash which self.old }
    {
        match which {
            Which::Older => {
                self.older.squash();
                self.followed = false;
            }
            Which::Younger => {
                if let Some(younger) = &mut self.second {
                    younger.squash();
                }
            }
        }
    }

    /// The younger chunk becomes the older, if there is one, and tells whether there is. The two change places: no word and no
    /// load moves.
    pub fn promote(&mut self) -> bool
        ensures value { result ≡ not (is_none self.old.younger) }
        ensures pair { self.new ≡ promoted self.old }
        ensures size { self.new.older.reads.bits ≡ self.old.older.reads.bits }
    {
        match &mut self.second {
            Some(younger) if self.followed => {
                mem::swap(&mut self.older, younger);
                self.followed = false;
                true
            }
            _ => false,
        }
    }

    /// The older chunk.
    pub fn older(&self) -> &Chunk<G>
        ensures { result.now ≡ engine_in self.now self.now.older }
    {
        &self.older
    }

    /// The younger chunk, if there is one.
    pub fn younger(&self) -> Option<&Chunk<G>>
        ensures { option_map (λ c. c.now) result ≡ option_map (engine_in self.now) self.now.younger }
    {
        match &self.second {
            Some(younger) if self.followed => Some(younger),
            _ => None,
        }
    }

    /// Gives up the lines that the older chunk has stored to, for a signature of no line in their place.
    pub fn hand_over(&mut self, writes: G) -> G
        requires { G.marks writes ≡ nothing self.old.older.reads.bits }
        ensures given { G.marks result ≡ self.old.older.writes }
        ensures pair { let bits = self.old.older.reads.bits in
            self.new ≡ with_older (record self.old.older { writes = nothing bits }) self.old }
    {
        self.older.hand_over(writes)
    }
}

// Whether a younger chunk may follow one that was closed so, unless that is a piece of a replayed commit.
fn may_follow(closed: Option<How>) -> bool
    ensures { result ≡ may_follow false closed }
{
    match closed {
        Some(How::Limit | How::Overflow | How::Cut) => true,
        Some(How::Serial) | None => false,
    }
}
