//! One flight.
ghost use Rattle.std.specs.Prelude.{◌≡◌, ◌<◌, ◌≤◌, Some};
ghost use Rattle.spec_engine.specs.Flights.{IsOfSize, all_told, bounces, is_done, is_of_sphere, meets_chunk, tell, told_at};

use dl_sig::Sig;
use dl_wbuf::Buffer;
use std::marker::Model;

/// A commit whose stores are still being made visible: its sphere, the words left in the order of their first store, the
/// lines that it stores to, and the cores that were told. Bit c of `told` stands for core c.
#[derive(Drop)]
pub struct Flight<G: Sig> {
    pub sphere: u8,
    pub words: Buffer,
    pub writes: G,
    pub told: u8,
}

impl<G: Sig> Model for Flight<G> {
    ghost use Rattle.std.specs.Coded.{codes};
    ghost use Rattle.spec_engine.specs.Signatures.{places_code};
    ghost use Rattle.spec_engine.specs.Flights.{Flight};

    ghost Value = { Flight };

    ghost coded = { Prim.hlevel (codes, places_code) };

    ghost view = { λ f. record { sphere = f.sphere; words = f.words.words; writes = G.marks f.writes; told = f.told } };
}

impl<G: Sig> Flight<G> {
    /// Whether it holds up the reading of a line by a core, which was told of it.
    pub fn bounces(&self, core: u8, line: u32) -> bool
        ensures { result ≡ bounces core line self.now }
    {
        self.was_told(core) && self.writes.covers(line)
    }

    /// Whether it hits what a chunk has read or written.
    pub fn meets(&self, reads: &G, writes: &G) -> bool
        requires reads { IsOfSize (G.marks reads.now).bits (Some self.now) }
        requires writes { IsOfSize (G.marks writes.now).bits (Some self.now) }
        ensures { result ≡ meets_chunk (G.marks reads.now) (G.marks writes.now) self.now }
    {
        self.writes.hits(reads) || self.writes.hits(writes)
    }

    /// Whether it is of that sphere.
    pub fn is_of(&self, sphere: u8) -> bool
        ensures { result ≡ is_of_sphere sphere self.now }
    {
        self.sphere == sphere
    }

    // Whether the core was told.
    #[tactic(auto, using(crate::proofs::Cores::told_past))]
    pub(crate) fn was_told(&self, core: u8) -> bool
        ensures { result ≡ told_at self.now.told core }
    {
        let told = self.told;
        if core >= 8 {
            return false;
        }
        told >> core & 1 == 1
    }

    // Tells the core.
    pub(crate) fn tell(&mut self, core: u8)
        requires { core < 8 }
        ensures { self.new ≡ tell self.old core }
    {
        self.told |= 1 << core;
    }

    // Whether no word is left, and each of that many cores was told.
    pub(crate) fn is_done(&self, cores: u8) -> bool
        requires { cores ≤ 8 }
        ensures { result ≡ is_done cores self.now }
    {
        self.words.is_empty() && self.were_told(cores)
    }

    fn were_told(&self, cores: u8) -> bool
        requires { cores ≤ 8 }
        ensures { result ≡ all_told cores self.now.told }
    {
        for core in 0..cores {
            if !self.was_told(core) {
                return false;
            }
        }
        true
    }
}
