//! The sphere.
ghost use Rattle.std.specs.Prelude.{◌≡◌, ◌^◌, ◌<◌, ◌≤◌, ◌∷◌, [], ℕ, Some, None, IfOk, IsOk, IsSome, OnOk, OnErr, length, slice_get, true, false};
ghost use Rattle.spec_isa.specs.declared.thread.Parts.{Parts};
ghost use Rattle.spec_engine.specs.declared.answers.How.{How};
ghost use Rattle.spec_kernel.specs.Devices.{Devices};
ghost use Rattle.spec_kernel.specs.Interrupts.{takes_interrupt};
ghost use Rattle.spec_isa.specs.Words.{lays};
ghost use Rattle.spec_isa.specs.Inside.{AreInside};
ghost use Rattle.spec_play.specs.Progress.{position};
ghost use Rattle.spec_engine.specs.Closing.{is_short, is_piece};
ghost use Rattle.spec_sphere.specs.sphere.Commits.{chunk_moved, serial_moved, dma_moved, raised};
ghost use Rattle.spec_sphere.specs.sphere.Epochs.{epoch_begun};
ghost use Rattle.spec_sphere.specs.sphere.Spheres.{replays, head_of, is_stopped, halves};
ghost use Rattle.spec_engine.specs.Flying.{flying};
ghost use Rattle.spec_sphere.specs.promises.Kept.{has_due};
ghost use Rattle.dl_sphere.specs.Moving.{came, CanCommit, IsTurnOf, IsTurnOfDma};
ghost use Rattle.dl_sphere.specs.Setups.{standard_in};
ghost use Rattle.dl_sphere.specs.SizedSpheres.{with_sphere};

use crate::commits::{chunk_commit, is_short};
use crate::epochs::current_state;
use crate::moved::Moved;
use crate::part::{Part, note, note_interrupt};
use crate::replaying::{commit_part, serve_dma, serve_step};
use crate::stepping::live_step;
use crate::transferring::live_dma;
use crate::words;
use dl_chunk::Chunk;
use dl_dev::Devices;
use dl_entry::OutOfMemory;
use dl_fly::Flights;
use dl_kernel::{Past, Step, counted, dma_commit, interrupted, settle, thread_at};
use dl_sig::Sig;
use std::marker::Model;

/// A sphere in its role.
#[derive(Drop)]
pub struct Sphere {
    pub(crate) s: u32,
    pub(crate) past: Past,
    pub(crate) part: Part,
}

impl Model for Sphere {
    ghost use Rattle.dl_sphere.specs.SizedSpheres.{SizedSphere};
    ghost use Rattle.dl_sphere.specs.Roles.{keeping_of, IsSphere};
    ghost use Rattle.dl_sphere.specs.Inside.{sphere_in};

    ghost Value = { SizedSphere };

    ghost view = { λ p. record { s = p.s; sphere = sphere_in p } };

    ghost invariant = { λ p. IsSphere p.s p.past (keeping_of p.part) };
}

impl Sphere {
    /// Commits the closed chunk of a thread, whole or as a piece of a replayed commit, unless the replay leaves its log.
    #[tactic(auto, unfolding(spec_sphere::specs::sphere::Commits::chunk_moved))]
    pub fn commit_chunk<G: Sig>(
        &mut self,
        thread: u8,
        chunk: &Chunk<G>,
    ) -> Result<Moved, OutOfMemory>
        ghost how: { How }
        requires thread { thread < length self.old.sphere.threads }
        requires chunk { CanCommit self.old.s self.old.sphere thread how chunk.now.chunk }
        requires few { replays self.old.sphere.role ≡ false → position self.old.sphere.progress < 2 ^ 24 }
        requires ready { has_due self.old.sphere ≡ false }
        ensures ok { IfOk result (λ m. (d : Devices) →
            came m self.new.sphere d
            ≡ chunk_moved thread (is_piece how) (is_short self.old.s how chunk.now.chunk.limit) chunk.now.chunk.done d self.old.sphere) }
        ensures standard { self.new.s ≡ self.old.s }
        ensures size { standard_in self.new.s self.new.sphere.role ≡ standard_in self.old.s self.old.sphere.role }
        ensures err { OnErr result (self.new ≡ self.old) }
    {
        if let Part::Replayed(replay) = &mut self.part {
            return commit_part(replay, &mut self.past, thread, chunk);
        }
        let _ = thread_at(&self.past.state.threads, thread);
        let words = words::copied(self.past.alloc, chunk.words())?;
        let commit = chunk_commit(self.past.alloc, thread, chunk)?;
        self.past.commits.reserve()?;
        note(&mut self.part, &commit, is_short(self.s, chunk), None)?;
        self.past.commits.push_reserved(commit);
        let after = counted(chunk.state());
        let state = &mut self.past.state;
        state.threads.set(thread, &after);
        state.last = Some(thread);
        state.commits += 1;
        Ok(Moved::Granted(words))
    }

    /// Does the serial step of a thread, whose next instruction is serial, at a moment modulo 2^32.
    pub fn serial_step(
        &mut self,
        thread: u8,
        devices: &mut Devices,
        moment: u32,
    ) -> Result<Moved, OutOfMemory>
        requires thread { thread < length self.old.sphere.threads }
        requires turn { IsTurnOf thread self.old.sphere.role }
        requires few { replays self.old.sphere.role ≡ false → position self.old.sphere.progress < 2 ^ 24 }
        requires ready { has_due self.old.sphere ≡ false }
        ensures ok { IfOk result (λ m. (t : Parts) → slice_get self.old.sphere.threads thread ≡ Some t →
            came m self.new.sphere devices.new ≡ serial_moved thread moment t devices.old self.old.sphere) }
        ensures standard { self.new.s ≡ self.old.s }
        ensures size { standard_in self.new.s self.new.sphere.role ≡ standard_in self.old.s self.old.sphere.role }
        ensures err { OnErr result (self.new ≡ self.old) }
        ensures devices { OnErr result (devices.new ≡ devices.old) }
    {
        if let Part::Replayed(replay) = &mut self.part {
            return serve_step(replay, &mut self.past, thread);
        }
        self.past.commits.reserve()?;
        let state = &self.past.state;
        let step = Step {
            number: thread,
            thread: thread_at(&state.threads, thread),
            threads: &state.threads,
            request: state.request,
            memory: &state.memory,
        };
        let left = live_step(self.past.alloc, &mut self.part, &step, devices, moment)?;
        self.past.commits.push_reserved(left.commit);
        let after = counted(&left.thread);
        let state = &mut self.past.state;
        settle(&mut state.threads, thread, &after, left.spawned);
        state.request = left.request;
        state.last = Some(thread);
        state.commits += 1;
        Ok(Moved::Granted(left.words))
    }

    /// Does the outstanding DMA request with the bytes of the input, as many as are asked for or are left.
    pub fn dma(&mut self, devices: &mut Devices) -> Result<Moved, OutOfMemory>
        requires turn { IsTurnOfDma self.old.sphere.role }
        requires some { IsSome (dma_moved devices.old self.old.sphere) }
        requires few { replays self.old.sphere.role ≡ false → position self.old.sphere.progress < 2 ^ 24 }
        requires ready { has_due self.old.sphere ≡ false }
        ensures ok { IfOk result (λ m. dma_moved devices.old self.old.sphere ≡ Some (came m self.new.sphere devices.new)) }
        ensures standard { self.new.s ≡ self.old.s }
        ensures size { standard_in self.new.s self.new.sphere.role ≡ standard_in self.old.s self.old.sphere.role }
        ensures err { OnErr result (self.new ≡ self.old) }
        ensures devices { OnErr result (devices.new ≡ devices.old) }
    {
        let _ = self.past.state.memory.size();
        if let Part::Replayed(replay) = &mut self.part {
            return serve_dma(replay, &mut self.past);
        }
        let Some(request) = self.past.state.request else {
            unreachable!();
        };
        self.past.commits.reserve()?;
        let words = live_dma(self.past.alloc, &mut self.part, &request, devices)?;
        self.past.commits.push_reserved(dma_commit(self.past.alloc));
        self.past.state.request = None;
        self.past.state.commits += 1;
        Ok(Moved::Granted(words))
    }

    /// A live thread with a handler, which handles no interrupt, takes one with this value.
    pub fn raise(&mut self, thread: u8, value: u32) -> Result<(), OutOfMemory>
        requires there { (t : Parts) → slice_get self.old.sphere.threads thread ≡ Some t → takes_interrupt t ≡ true }
        requires thread { thread < length self.old.sphere.threads }
        requires recorded { replays self.old.sphere.role ≡ false }
        requires ready { has_due self.old.sphere ≡ false }
        ensures ok { OnOk result ((t : Parts) → slice_get self.old.sphere.threads thread ≡ Some t →
            self.new.sphere ≡ raised thread value t self.old.sphere) }
        ensures standard { self.new.s ≡ self.old.s }
        ensures size { standard_in self.new.s self.new.sphere.role ≡ standard_in self.old.s self.old.sphere.role }
        ensures err { OnErr result (self.new ≡ self.old) }
    {
        let found = thread_at(&self.past.state.threads, thread);
        note_interrupt(&mut self.part, thread, found.commits(), value)?;
        let after = interrupted(value, &found);
        self.past.state.threads.set(thread, &after);
        Ok(())
    }

    /// Begins an epoch, if one is due, in the sphere of that number, with what is left in its flights laid over its memory. If
    /// there are then more than are kept, the earliest is given up, with its commits and records.
    pub fn begin_epoch<G: Sig>(
        &mut self,
        flights: &Flights<G>,
        number: u8,
    ) -> Result<(), OutOfMemory>
        requires { AreInside (length self.old.sphere.memory) (flying number flights.now.slots) }
        ensures ok { let memory = lays self.old.sphere.memory (flying number flights.now.slots) in
            OnOk result (self.new ≡ with_sphere (epoch_begun memory self.old.sphere) self.old) }
        ensures err { OnErr result (self.new ≡ self.old) }
        ensures needless { has_due self.old.sphere ≡ false → IsOk result }
    {
        let Part::Recorded(recording) = &mut self.part else {
            return Ok(());
        };
        if !recording.is_due() {
            return Ok(());
        }
        let past = &mut self.past;
        let state = current_state(past.alloc, &mut past.state, flights, number)?;
        recording.begin_epoch(state)?;
        let first = recording.first();
        past.commits.drop_first((first - past.first) as usize);
        past.first = first;
        Ok(())
    }
}
