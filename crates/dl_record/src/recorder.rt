//! The recorder of a sphere.
ghost use Rattle.std.specs.Prelude.{◌≡◌, ℕ, ◌^◌, ◌+◌, ◌≤◌, true, [], None, Some, slice_get, slice_index, IfOk, IfSome, IsSome};
ghost use Rattle.std.specs.Prelude.{IsOk, IsTrue, OnOk, OnErr, ◌<◌};
ghost use Rattle.std.specs.Prelude.{option_map, All};
ghost use Rattle.spec_log.specs.Log.{IsInput, AreFewBytes};
ghost use Rattle.spec_log.specs.Versions.{IsVersion, IsStandard, new_threads as threads_of};
ghost use Rattle.spec_log.specs.Noting.{nothing_kept, noted, insert_interrupt, log_of};
ghost use Rattle.dl_mode.specs.Logged.{note_of};
ghost use Rattle.spec_play.specs.Epochs.{commits_of as had_done};
ghost use Rattle.dl_kernel.specs.States.{state_in};
ghost use Rattle.dl_record.specs.Epochs.{IsBegun, base, base_state, due_in, epoch_begun};
ghost use Rattle.dl_record.specs.Recording.{CanCommit, IsFresh, commits_in, in_epochs, interrupt, with_input, with_dma};

use crate::epochs::{Base, Epoch, Epochs, done_of, unraised_of};
use dl_entry::{Commit, Input, MOST_THREADS, OutOfMemory, PLAIN_THREADS};
use dl_input::{Dmas, Inputs, Interrupts};
use dl_kernel::State;
use dl_mem::Snapshot;
use dl_mode::Noting;
use spec_log::{Log, LogParts};
use std::alloc::Global;
use std::marker::Model;

/// Notes a sphere's commits with their records, and its interrupts. If it is in epochs, it keeps the last few of them, each with
/// the state at which it begins, and gives up what is older.
#[derive(Drop)]
pub struct Recorder<M: Noting> {
    alloc: Global,
    version: u8,
    count: u32,
    log: M::Log,
    interrupts: Interrupts,
    inputs: Inputs,
    dmas: Dmas,
    epochs: Option<Epochs>,
}

impl<M: Noting> Model for Recorder<M> {
    ghost use Rattle.std.specs.Prelude.{◌≡◌, ◌+◌, length, map, ◌&&◌};
    ghost use Rattle.dl_input.specs.Tracked.{interrupt_of};
    ghost use Rattle.dl_record.specs.Epochs.{AreEpochsIf, base, base_inputs, epochs_in, has_room};
    ghost use Rattle.dl_record.specs.Recording.{Recording, IsRecording};

    ghost Value = { Recording };

    ghost view = { λ r. record {
      version = r.version;
      kept = (M.logged r.log).kept;
      interrupts = map interrupt_of r.interrupts.entries;
      inputs = r.inputs.inputs;
      dmas = r.dmas.dmas;
      epochs = epochs_in r.epochs;
      room = (M.logged r.log).room && r.inputs.room && r.dmas.room;
      interrupt_room = r.interrupts.room;
      epoch_room = has_room r.epochs;
    } };

    ghost invariant = { λ r.
        IsRecording r.version M.mode (base (epochs_in r.epochs)) (base_inputs (epochs_in r.epochs)) (M.logged r.log).kept
        (map interrupt_of r.interrupts.entries) r.inputs.inputs r.dmas.dmas
        × (r.count ≡ base (epochs_in r.epochs) + (M.logged r.log).kept.count)
        × AreEpochsIf (epochs_in r.epochs) r.count (base_inputs (epochs_in r.epochs) + length r.inputs.inputs) };
}

impl<M: Noting> Recorder<M> {
    /// Nothing is noted yet, for a log of this version, 1 or 2; a standard chunk has `s` instructions.
    pub fn new(alloc: Global, version: u8, s: u32) -> Result<Recorder<M>, OutOfMemory>
        requires version { IsVersion version (threads_of version) }
        requires s { IsStandard version s }
        ensures version { IfOk result (λ recorder. recorder.version ≡ version) }
        ensures kept { IfOk result (λ recorder. recorder.kept ≡ nothing_kept M.mode s) }
        ensures interrupts { IfOk result (λ recorder. recorder.interrupts ≡ []) }
        ensures inputs { IfOk result (λ recorder. recorder.inputs ≡ []) }
        ensures dmas { IfOk result (λ recorder. recorder.dmas ≡ []) }
        ensures epochs { IfOk result (λ recorder. recorder.epochs ≡ None) }
    {
        Ok(Recorder {
            alloc,
            version,
            count: 0,
            log: M::new(alloc, s)?,
            interrupts: Interrupts::new(alloc)?,
            inputs: Inputs::new(alloc),
            dmas: Dmas::new(alloc),
            epochs: None,
        })
    }

    /// The same in epochs of `size` commits each, of which the last `keep` are kept. None has begun yet.
    pub fn with_epochs(
        alloc: Global,
        version: u8,
        s: u32,
        size: u32,
        keep: u32,
    ) -> Result<Recorder<M>, OutOfMemory>
        requires version { IsVersion version (threads_of version) }
        requires s { IsStandard version s }
        requires size { 1 ≤ size }
        requires keep { 1 ≤ keep }
        ensures version { IfOk result (λ recorder. recorder.version ≡ version) }
        ensures kept { IfOk result (λ recorder. recorder.kept ≡ nothing_kept M.mode s) }
        ensures interrupts { IfOk result (λ recorder. recorder.interrupts ≡ []) }
        ensures inputs { IfOk result (λ recorder. recorder.inputs ≡ []) }
        ensures dmas { IfOk result (λ recorder. recorder.dmas ≡ []) }
        ensures epochs { IfOk result (λ recorder. recorder.epochs ≡ Some (record { size = size; keep = keep; begun = [] })) }
    {
        let mut recorder = Recorder::new(alloc, version, s)?;
        recorder.epochs = Some(Epochs::new(alloc, size, keep));
        Ok(recorder)
    }

    /// Makes room for one commit with its records, one interrupt and one epoch. If there is already room for all, it isn't
    /// refused.
    pub fn reserve(&mut self) -> Result<(), OutOfMemory>
        ensures version { self.new.version ≡ self.old.version }
        ensures kept { self.new.kept ≡ self.old.kept }
        ensures interrupts { self.new.interrupts ≡ self.old.interrupts }
        ensures inputs { self.new.inputs ≡ self.old.inputs }
        ensures dmas { self.new.dmas ≡ self.old.dmas }
        ensures epochs { self.new.epochs ≡ self.old.epochs }
        ensures room { OnOk result (IsTrue self.new.room) }
        ensures interrupt_room { OnOk result (IsTrue self.new.interrupt_room) }
        ensures epoch_room { OnOk result (IsTrue self.new.epoch_room) }
        ensures room_before { IsTrue self.old.room → IsTrue self.old.interrupt_room → IsTrue self.old.epoch_room → IsOk result }
    {
        M::reserve(&mut self.log)?;
        self.interrupts.reserve()?;
        self.inputs.reserve()?;
        self.dmas.reserve()?;
        match &mut self.epochs {
            Some(epochs) => epochs.reserve(),
            None => Ok(()),
        }
    }

    /// Whether an epoch is to begin, before the next commit or interrupt is noted.
    pub fn is_due(&self) -> bool
        ensures { result ≡ due_in self.now.epochs (commits_in self.now) }
    {
        match &self.epochs {
            Some(epochs) => epochs.is_due(self.count),
            None => false,
        }
    }

    /// An epoch begins at this state, which is the one after the commits that were noted. If there are then more than are kept,
    /// the earliest is given up, with its commits and records. If there is room, it isn't refused.
    pub fn begin_epoch(&mut self, state: State<Snapshot>) -> Result<(), OutOfMemory>
        requires due { IsTrue (due_in self.old.epochs (commits_in self.old)) }
        requires commits { state.commits ≡ commits_in self.old }
        requires done { (t : ℕ) → had_done (slice_get state.threads t) ≡ slice_index self.old.kept.done t }
        ensures ok { OnOk result (in_epochs M.mode self.new ≡ epoch_begun (state_in state) (in_epochs M.mode self.old)) }
        ensures commits { OnOk result (commits_in self.new ≡ commits_in self.old) }
        ensures err { OnErr result (in_epochs M.mode self.new ≡ in_epochs M.mode self.old) }
        ensures room { IsTrue self.old.room → IsTrue self.new.room }
        ensures interrupt_room { IsTrue self.old.interrupt_room → IsTrue self.new.interrupt_room }
        ensures epoch_room { IsTrue self.old.epoch_room → IsOk result }
    {
        let Some(epochs) = &mut self.epochs else {
            return Ok(());
        };
        let inputs = epochs.inputs_before() + self.inputs.len();
        epochs.begin(Epoch { state, inputs })?;
        if let Some((first, next)) = epochs.given_up() {
            let state = &next.state;
            let n = state.commits - first.state.commits;
            M::forget(&mut self.log, n, &done_of(&state.threads));
            self.interrupts.forget(&unraised_of(&state.threads));
            self.inputs.forget(next.inputs - first.inputs);
            self.dmas.forget(state.commits);
            epochs.drop_first();
        }
        Ok(())
    }

    /// Notes a commit, whether its chunk is short, and its record. If there is room, it isn't refused.
    pub fn commit(
        &mut self,
        commit: &Commit,
        closed_short: bool,
        input: Option<&Input>,
        dma: Option<&[u8]>,
    ) -> Result<(), OutOfMemory>
        requires commit { CanCommit self.old.version self.old.kept commit.now closed_short }
        requires few { commits_in self.old < 2 ^ 24 }
        requires begun { IsBegun self.old.epochs (commits_in self.old) }
        requires input { IfSome input (λ i. IsInput i.now) }
        requires dma { IfSome dma (λ bytes. AreFewBytes bytes.now) }
        ensures kept { OnOk result (self.new.kept ≡ noted M.mode self.old.kept (note_of commit.now closed_short)) }
        ensures inputs { OnOk result (self.new.inputs ≡ with_input self.old.inputs (option_map (λ i. i.now) input.entry)) }
        ensures dmas { OnOk result (self.new.dmas
            ≡ with_dma self.old.dmas (commits_in self.old) (option_map (λ b. b.now) dma.entry)) }
        ensures kept_still { OnErr result (self.new.kept ≡ self.old.kept) }
        ensures inputs_still { OnErr result (self.new.inputs ≡ self.old.inputs) }
        ensures dmas_still { OnErr result (self.new.dmas ≡ self.old.dmas) }
        ensures version { self.new.version ≡ self.old.version }
        ensures interrupts { self.new.interrupts ≡ self.old.interrupts }
        ensures epochs { self.new.epochs ≡ self.old.epochs }
        ensures room { IsTrue self.old.room → IsOk result }
        ensures interrupt_room { self.new.interrupt_room ≡ self.old.interrupt_room }
        ensures epoch_room { self.new.epoch_room ≡ self.old.epoch_room }
    {
        self.inputs.reserve()?;
        self.dmas.reserve()?;
        M::note(&mut self.log, commit, closed_short)?;
        note_input(&mut self.inputs, input)?;
        note_dma(&mut self.dmas, self.count, dma)?;
        self.count += 1;
        Ok(())
    }

    /// Notes an interrupt of a new moment. If there is room, it isn't refused.
    pub fn interrupt(&mut self, thread: u8, index: u32, value: u32) -> Result<(), OutOfMemory>
        requires thread { thread < threads_of self.old.version }
        requires fresh { IsFresh self.old.interrupts thread index }
        requires begun { IsBegun self.old.epochs (commits_in self.old) }
        ensures ok { let interrupt = interrupt thread index value in
            OnOk result (self.new.interrupts ≡ insert_interrupt interrupt self.old.interrupts) }
        ensures err { OnErr result (self.new.interrupts ≡ self.old.interrupts) }
        ensures version { self.new.version ≡ self.old.version }
        ensures kept { self.new.kept ≡ self.old.kept }
        ensures inputs { self.new.inputs ≡ self.old.inputs }
        ensures dmas { self.new.dmas ≡ self.old.dmas }
        ensures epochs { self.new.epochs ≡ self.old.epochs }
        ensures room { self.new.room ≡ self.old.room }
        ensures interrupt_room { IsTrue self.old.interrupt_room → IsOk result }
        ensures epoch_room { self.new.epoch_room ≡ self.old.epoch_room }
    {
        self.interrupts.note(thread, index, value)
    }

    /// How many threads its log may have.
    pub fn threads(&self) -> u8
        ensures { result ≡ threads_of self.now.version }
    {
        new_threads(self.version)
    }

    /// How many commits came before what it keeps: none of a recorder without epochs.
    pub fn first(&self) -> u32
        ensures { result ≡ base self.now.epochs }
    {
        match &self.epochs {
            Some(epochs) => epochs.commits_before(),
            None => 0,
        }
    }

    /// Where what it keeps begins: at the earliest epoch that wasn't given up.
    pub fn base(&self) -> Base<'_>
        requires some { IsSome self.now.epochs }
        requires begun { IsBegun self.now.epochs (commits_in self.now) }
        ensures at { result.at ≡ base self.now.epochs }
        ensures state { base_state self.now.epochs ≡ Some (state_in result.state.now) }
    {
        match &self.epochs {
            Some(epochs) => epochs.base(),
            None => unreachable!(),
        }
    }

    /// The log of what was noted, from its base on.
    pub fn finish(&self) -> Result<Log, OutOfMemory>
        ensures { IfOk result (λ log. log ≡ log_of self.now.version (threads_of self.now.version)
            M.mode self.now.kept self.now.interrupts self.now.inputs self.now.dmas) }
    {
        let lists = M::lists(self.alloc, &self.log)?;
        Ok(Log::new(LogParts {
            version: self.version,
            threads: self.threads(),
            mode: lists.mode,
            s: lists.s,
            count: lists.count,
            order: lists.order,
            sizes: lists.sizes,
            interrupts: self.interrupts.list(self.alloc)?,
            inputs: self.inputs.list(self.alloc)?,
            dmas: self.dmas.list(self.alloc)?,
        }))
    }
}

/// How many threads a new log of this version may have.
fn new_threads(version: u8) -> u8
    ensures { result ≡ threads_of version }
{
    if version == 1 {
        PLAIN_THREADS
    } else {
        MOST_THREADS
    }
}

fn note_input(inputs: &mut Inputs, input: Option<&Input>) -> Result<(), OutOfMemory>
    requires { IfSome input (λ i. IsInput i.now) }
    ensures ok { OnOk result (inputs.new.inputs ≡ with_input inputs.old.inputs (option_map (λ i. i.now) input.entry)) }
    ensures err { OnErr result (inputs.new.inputs ≡ inputs.old.inputs) }
    ensures room { IsTrue inputs.old.room → IsOk result }
{
    match input {
        Some(input) => inputs.note(input),
        None => Ok(()),
    }
}

fn note_dma(dmas: &mut Dmas, position: u32, bytes: Option<&[u8]>) -> Result<(), OutOfMemory>
    requires few { IfSome bytes (λ b. AreFewBytes b.now) }
    requires positions { All (λ dma. dma.position < position) dmas.old.dmas }
    ensures ok { OnOk result (dmas.new.dmas ≡ with_dma dmas.old.dmas position (option_map (λ b. b.now) bytes.entry)) }
    ensures err { OnErr result (dmas.new.dmas ≡ dmas.old.dmas) }
    ensures room { IsTrue dmas.old.room → IsOk result }
{
    match bytes {
        Some(bytes) => dmas.note(position, bytes),
        None => Ok(()),
    }
}
