//! Who has touched each word of a memory in the present stratum.
ghost use Rattle.std.specs.Prelude.{◌≡◌, ◌+◌, ◌^◌, ◌<◌, ◌↔◌, length, map, replicate, slice_set, IfOk, IsTrue};
ghost use Rattle.spec_strata.specs.declared.touch.Touch.{Touch};
ghost use Rattle.spec_strata.specs.Touches.{bars_look, bars_store, looked_at};
ghost use Rattle.dl_strata.specs.Tables.{IsFreeIn, IsWithin, Touched, touch_of};

use dl_entry::OutOfMemory;
use dl_serial::Footprint;
use spec_strata::Touch;
use std::alloc::Global;
use std::marker::Model;

// Who has touched a word in a stratum; strata are counted.
#[derive(Clone, Copy)]
struct Mark {
    stratum: u32,
    touch: Touch,
}

/// Who has touched each word in the present stratum, the last of so many. What is marked of an earlier stratum doesn't count,
/// so a new stratum costs nothing.
#[derive(Drop)]
pub struct Touches {
    stratum: u32,
    marks: Vec<Mark>,
}

impl Model for Touches {
    ghost use Rattle.std.specs.Prelude.{map};
    ghost use Rattle.dl_strata.specs.Tables.{Table};
    ghost use Rattle.dl_strata.specs.Marks.{AreOld, fresh};

    ghost Value = { Table };

    ghost view = { λ t. record { stratum = t.stratum; touches = map (fresh t.stratum) t.marks.items } };

    ghost invariant = { λ t. AreOld t.stratum t.marks.items };
}

impl Touches {
    /// Of so many words, before the first stratum.
    pub fn new(alloc: Global, words: usize) -> Result<Touches, OutOfMemory>
        ensures { IfOk result (λ t. t ≡ record { stratum = 0; touches = replicate words Touch.Untouched }) }
    {
        let mark = Mark {
            stratum: 0,
            touch: Touch::Untouched,
        };
        Ok(Touches {
            stratum: 0,
            marks: vec![in alloc; mark; words]?,
        })
    }

    /// Begins a stratum.
    pub fn begin(&mut self)
        requires { self.old.stratum + 1 < 2 ^ 32 }
        ensures { let t = self.old in
            self.new ≡ record { stratum = t.stratum + 1; touches = map (λ _. Touch.Untouched) t.touches } }
    {
        self.stratum += 1;
    }

    /// Whether a commit of a thread conflicts with none that another thread has done in the stratum.
    pub fn is_free(&self, thread: u8, footprint: &Footprint) -> bool
        ensures { IsTrue result ↔ IsFreeIn self.now.touches thread footprint.now }
    {
        for number in &footprint.looked {
            if bars_look(self.touch(*number), thread) {
                return false;
            }
        }
        for number in &footprint.stored {
            if bars_store(self.touch(*number), thread) {
                return false;
            }
        }
        true
    }

    /// Notes a commit of a thread.
    pub fn note(&mut self, thread: u8, footprint: &Footprint)
        requires { IsWithin (length self.old.touches) footprint.now }
        ensures stratum { self.new.stratum ≡ self.old.stratum }
        ensures words { length self.new.touches ≡ length self.old.touches }
        ensures touched { Touched self.old.touches thread footprint.now self.new.touches }
    {
        for number in &footprint.looked {
            let touch = looked_at(self.touch(*number), thread);
            self.set(*number, touch);
        }
        for number in &footprint.stored {
            self.set(*number, Touch::StoredBy(thread));
        }
    }

    // Who has touched a word.
    fn touch(&self, number: u32) -> Touch
        ensures { result ≡ touch_of self.now.touches number }
    {
        match self.marks.get(number as usize) {
            Some(mark) if mark.stratum == self.stratum => mark.touch,
            Some(_) | None => Touch::Untouched,
        }
    }

    fn set(&mut self, number: u32, touch: Touch)
        requires { number < length self.old.touches }
        ensures { let t = self.old in
            self.new ≡ record { stratum = t.stratum; touches = slice_set t.touches number touch } }
    {
        self.marks[number as usize] = Mark {
            stratum: self.stratum,
            touch,
        };
    }
}

// Whether the thread can't look at the word.
fn bars_look(touch: Touch, thread: u8) -> bool
    ensures { result ≡ bars_look touch thread }
{
    match touch {
        Touch::Untouched | Touch::SeenBy(_) | Touch::Shared => false,
        Touch::StoredBy(other) => other != thread,
    }
}

// Whether it can't store to it.
fn bars_store(touch: Touch, thread: u8) -> bool
    ensures { result ≡ bars_store touch thread }
{
    match touch {
        Touch::Untouched => false,
        Touch::Shared => true,
        Touch::SeenBy(other) | Touch::StoredBy(other) => other != thread,
    }
}

// The word, once the thread has looked at it.
fn looked_at(touch: Touch, thread: u8) -> Touch
    ensures { result ≡ looked_at touch thread }
{
    match touch {
        Touch::Untouched => Touch::SeenBy(thread),
        Touch::SeenBy(other) if other == thread => touch,
        Touch::SeenBy(_) | Touch::Shared => Touch::Shared,
        Touch::StoredBy(_) => touch,
    }
}
