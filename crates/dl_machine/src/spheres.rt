//! The row of spheres.
ghost use Rattle.std.specs.Prelude.{◌≡◌, ◌≤◌, ◌<◌, ◌^◌, max, IfOk, OnOk, OnErr, IsSome, Some, false, true, length, map, slice_get, All};
ghost use Rattle.spec_isa.specs.declared.thread.Parts.{Parts};
ghost use Rattle.spec_engine.specs.declared.answers.How.{How};
ghost use Rattle.spec_engine.specs.Flights.{IsInside, at, drain};
ghost use Rattle.spec_kernel.specs.Devices.{Devices};
ghost use Rattle.spec_kernel.specs.Interrupts.{takes_interrupt};
ghost use Rattle.spec_play.specs.Progress.{position};
ghost use Rattle.spec_sphere.specs.sphere.Spheres.{replays};
ghost use Rattle.spec_sphere.specs.promises.Sound.{IsChunkSize, IsImage};
ghost use Rattle.spec_protocol.specs.promises.Sound.{AreFew};
ghost use Rattle.spec_engine.specs.Closing.{is_short, is_piece};
ghost use Rattle.spec_sphere.specs.sphere.Commits.{chunk_moved, dma_moved, raised, serial_moved};
ghost use Rattle.spec_isa.specs.Words.{lays};
ghost use Rattle.spec_isa.specs.Inside.{AreInside};
ghost use Rattle.spec_sphere.specs.sphere.Epochs.{epoch_begun};
ghost use Rattle.spec_engine.specs.Flying.{flying};
ghost use Rattle.spec_sphere.specs.promises.Kept.{has_due};
ghost use Rattle.dl_fly.specs.Slots.{set_slot};
ghost use Rattle.spec_sphere.specs.sphere.Setups.{sphere_of};
ghost use Rattle.dl_sphere.specs.Setups.{HasBegun, IsRecordableIf, setup_of, standard_in};
ghost use Rattle.dl_machine.specs.Setups.{greatest};
ghost use Rattle.dl_sphere.specs.Moving.{CanCommit, IsTurnOf, IsTurnOfDma, came};

use dl_chunk::Chunk;
use dl_dev::Devices;
use dl_entry::OutOfMemory;
use dl_fly::{Drain, Flights};
use dl_sig::Sig;
use dl_sphere::{Moved, Sphere, SphereSetup};
use std::alloc::Global;
use std::marker::Model;

// From 1 to 8 spheres, of one standard size of a chunk in the plan; a replayed one has that of its log. `most` is the greatest.
#[derive(Drop)]
pub(crate) struct Spheres {
    s: u32,
    most: u32,
    row: Vec<Sphere>,
}

impl Model for Spheres {
    ghost use Rattle.std.specs.Prelude.{map};
    ghost use Rattle.dl_machine.specs.Rows.{AreSpheres, Spheres, sphere_in};

    ghost Value = { Spheres };

    ghost view = { λ r. record { s = r.s; most = r.most; spheres = map sphere_in r.row.items } };

    ghost invariant = { λ r. AreSpheres r.s r.most r.row.items };
}

impl Spheres {
    ghost use Rattle.dl_machine.specs.Rows.{nth_sphere, with_nth};

    /// The spheres of these setups, from 1 to 8.
    pub(crate) fn new(alloc: Global, setups: &[SphereSetup], s: u32) -> Result<Spheres, OutOfMemory>
        requires few { AreFew (length setups.now) }
        requires size { IsChunkSize s }
        requires recorded { All (λ image. IsRecordableIf s image.role) (map setup_of setups.now) }
        requires begun { All HasBegun setups.now }
        ensures made { IfOk result (λ r. r ≡ record { s = s; most = greatest s setups.now; spheres = map (sphere_of s) (map setup_of setups.now) }) }
        ensures images { IfOk result (λ r. All (λ setup. IsImage s (setup_of setup)) setups.now) }
    {
        let mut row = Vec::with_capacity(alloc, setups.len())?;
        let mut most = s;
        for setup in setups {
            let sphere = Sphere::new(alloc, setup, s)?;
            most = most.max(sphere.standard());
            row.push_reserved(sphere);
        }
        Ok(Spheres { s, most, row })
    }

    /// How many there are, from 1 to 8.
    pub(crate) fn len(&self) -> u8
        ensures value { result ≡ length self.now.spheres }
        ensures least { 1 ≤ result }
        ensures most { result ≤ 8 }
    {
        self.row.len() as u8
    }

    /// The standard size of a chunk.
    pub(crate) fn s(&self) -> u32
        ensures { result ≡ self.now.s }
    {
        self.s
    }

    /// The greatest standard size of a sphere's chunks.
    pub(crate) fn most(&self) -> u32
        ensures value { result ≡ self.now.most }
        ensures size { IsChunkSize result }
    {
        self.most
    }

    /// The i-th.
    pub(crate) fn get(&self, i: u8) -> &Sphere
        requires { i < length self.now.spheres }
        ensures sphere { result.now ≡ record { s = self.now.s; sphere = nth_sphere i self.now } }
        ensures most { max 1 (standard_in self.now.s (nth_sphere i self.now).role) ≤ self.now.most }
    {
        &self.row[i as usize]
    }

    /// The i-th does the first word left of a flight.
    pub(crate) fn drain<G: Sig>(&mut self, i: u8, flights: &mut Flights<G>, k: u8) -> Drain
        requires sphere { i < length self.old.spheres }
        requires slot { k < length flights.old.slots }
        requires inside { IsInside (length (nth_sphere i self.old).memory) (at flights.old.slots k) }
        ensures reply { let d = drain (nth_sphere i self.old).memory (at flights.old.slots k) in result ≡ d.reply }
        ensures slots { let d = drain (nth_sphere i self.old).memory (at flights.old.slots k) in
            flights.new ≡ set_slot k d.slot flights.old }
        ensures memory { let p = nth_sphere i self.old in let d = drain p.memory (at flights.old.slots k) in
            self.new ≡ with_nth i (record p { memory = d.memory }) self.old }
    {
        let sphere = &mut self.row[i as usize];
        sphere.drain(flights, k)
    }

    /// The i-th commits a closed chunk of one of its threads.
    pub(crate) fn commit_chunk<G: Sig>(
        &mut self,
        i: u8,
        thread: u8,
        chunk: &Chunk<G>,
    ) -> Result<Moved, OutOfMemory>
        requires sphere { i < length self.old.spheres }
        requires thread { thread < length (nth_sphere i self.old).threads }
        requires chunk { (how : How) × CanCommit self.old.s (nth_sphere i self.old) thread how chunk.now.chunk }
        requires few { let p = nth_sphere i self.old in replays p.role ≡ false → position p.progress < 2 ^ 24 }
        requires ready { has_due (nth_sphere i self.old) ≡ false }
        ensures ok { IfOk result (λ m. (d : Devices) (how : How) → chunk.now.chunk.closed ≡ Some how →
            let p = nth_sphere i self.old in
            let short = is_short self.old.s how chunk.now.chunk.limit in
            came m (nth_sphere i self.new) d ≡ chunk_moved thread (is_piece how) short chunk.now.chunk.done d p) }
        ensures others { self.new ≡ with_nth i (nth_sphere i self.new) self.old }
        ensures err { OnErr result (self.new ≡ self.old) }
    {
        let sphere = &mut self.row[i as usize];
        sphere.commit_chunk(thread, chunk)
    }

    /// The i-th does the serial step of one of its threads.
    pub(crate) fn serial_step(
        &mut self,
        i: u8,
        thread: u8,
        devices: &mut Devices,
        moment: u32,
    ) -> Result<Moved, OutOfMemory>
        requires sphere { i < length self.old.spheres }
        requires thread { thread < length (nth_sphere i self.old).threads }
        requires turn { IsTurnOf thread (nth_sphere i self.old).role }
        requires few { let p = nth_sphere i self.old in replays p.role ≡ false → position p.progress < 2 ^ 24 }
        requires ready { has_due (nth_sphere i self.old) ≡ false }
        ensures ok { IfOk result (λ m. (t : Parts) → slice_get (nth_sphere i self.old).threads thread ≡ Some t →
            let p = nth_sphere i self.old in
            came m (nth_sphere i self.new) devices.new ≡ serial_moved thread moment t devices.old p) }
        ensures others { self.new ≡ with_nth i (nth_sphere i self.new) self.old }
        ensures err { OnErr result (self.new ≡ self.old) }
        ensures devices { OnErr result (devices.new ≡ devices.old) }
    {
        let sphere = &mut self.row[i as usize];
        sphere.serial_step(thread, devices, moment)
    }

    /// One of the i-th sphere's threads is interrupted.
    pub(crate) fn raise(&mut self, i: u8, thread: u8, value: u32) -> Result<(), OutOfMemory>
        requires sphere { i < length self.old.spheres }
        requires thread { thread < length (nth_sphere i self.old).threads }
        requires there { (t : Parts) → slice_get (nth_sphere i self.old).threads thread ≡ Some t → takes_interrupt t ≡ true }
        requires recorded { replays (nth_sphere i self.old).role ≡ false }
        requires ready { has_due (nth_sphere i self.old) ≡ false }
        ensures ok { OnOk result ((t : Parts) → slice_get (nth_sphere i self.old).threads thread ≡ Some t →
            nth_sphere i self.new ≡ raised thread value t (nth_sphere i self.old)) }
        ensures others { self.new ≡ with_nth i (nth_sphere i self.new) self.old }
        ensures err { OnErr result (self.new ≡ self.old) }
    {
        let sphere = &mut self.row[i as usize];
        sphere.raise(thread, value)
    }

    /// The i-th does its DMA.
    pub(crate) fn dma(&mut self, i: u8, devices: &mut Devices) -> Result<Moved, OutOfMemory>
        requires sphere { i < length self.old.spheres }
        requires turn { IsTurnOfDma (nth_sphere i self.old).role }
        requires some { IsSome (dma_moved devices.old (nth_sphere i self.old)) }
        requires few { let p = nth_sphere i self.old in replays p.role ≡ false → position p.progress < 2 ^ 24 }
        requires ready { has_due (nth_sphere i self.old) ≡ false }
        ensures ok { IfOk result (λ m. let p = nth_sphere i self.old in
            dma_moved devices.old p ≡ Some (came m (nth_sphere i self.new) devices.new)) }
        ensures others { self.new ≡ with_nth i (nth_sphere i self.new) self.old }
        ensures err { OnErr result (self.new ≡ self.old) }
        ensures devices { OnErr result (devices.new ≡ devices.old) }
    {
        let sphere = &mut self.row[i as usize];
        sphere.dma(devices)
    }

    /// An epoch begins in the i-th, if one is due.
    pub(crate) fn begin_epoch<G: Sig>(
        &mut self,
        i: u8,
        flights: &Flights<G>,
    ) -> Result<(), OutOfMemory>
        requires sphere { i < length self.old.spheres }
        requires inside { AreInside (length (nth_sphere i self.old).memory) (flying i flights.now.slots) }
        ensures ok { let p = nth_sphere i self.old in
            OnOk result (self.new ≡ with_nth i (epoch_begun (lays p.memory (flying i flights.now.slots)) p) self.old) }
        ensures err { OnErr result (self.new ≡ self.old) }
    {
        let sphere = &mut self.row[i as usize];
        sphere.begin_epoch(flights, i)
    }
}
