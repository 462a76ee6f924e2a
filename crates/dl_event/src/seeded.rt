//! Schedules that are drawn from a seed.
ghost use Rattle.std.specs.Prelude.{◌≡◌, ℕ, suc, ◌∷◌};
ghost use Rattle.rand_pcg.specs.Pcg.{pcg32};
ghost use Rattle.dl_event.specs.Seeded.{drawn, seeded, schedule};

use rand_core::utils::NextWord;
use rand_pcg::Lcg64Xsh32;
use spec_protocol::Event;
use std::marker::Model;

/// A seed's schedule, which has no end, seen as the state that its random words come from.
#[derive(Debug, Drop)]
pub struct Seeded {
    words: Lcg64Xsh32,
}

impl Model for Seeded {
    ghost use Rattle.rand_pcg.specs.Lcg.{Lcg};

    ghost Value = { Lcg };

    ghost view = { λ s. s.words };
}

impl Seeded {
    /// The schedule of a seed, at its first event.
    pub fn new(seed: u64) -> Self
        ensures { result ≡ seeded seed }
    {
        Seeded {
            words: Lcg64Xsh32::new(seed, 1),
        }
    }

    /// The next event, which one random word stands for.
    #[tactic(auto, unfolding(crate::specs::Seeded::schedule))]
    pub fn next(&mut self) -> Event
        ensures event { result ≡ drawn (pcg32 self.old).0 }
        ensures moved { self.new ≡ (pcg32 self.old).1 }
        ensures schedule { (n : ℕ) → schedule (suc n) self.old ≡ result ∷ schedule n self.new }
    {
        event_of(self.words.next_word())
    }
}

// The event that a word stands for.
fn event_of(word: u32) -> Event
    ensures { result ≡ drawn word }
{
    let core = (word / 64 % 8) as u8;
    let sphere = (word / 512 % 8) as u8;
    let thread = (word / 4096 % 16) as u8;
    let slot = (word / 65536 % 8) as u8;
    match word % 64 {
        0..=39 => Event::Step(core),
        40..=45 => Event::Ask(core),
        46..=51 => Event::Drain(slot),
        52..=56 => Event::Deliver(core, slot),
        57..=59 => Event::Retire(slot),
        60 => Event::Place(core, sphere, thread),
        61 => Event::Cut(core),
        62 => Event::Raise(sphere, thread, word / 524_288),
        _ => Event::Dma(sphere),
    }
}
