//! A recording in any of the three modes.
ghost use Rattle.std.specs.Prelude.{◌≡◌, ℕ, ◌≤◌, Some, slice_get, slice_index};
ghost use Rattle.std.specs.Prelude.{IfOk, IfSome, IsOk, IsSome, IsTrue, OnOk, OnErr, option_map};
ghost use Rattle.dl_entry.specs.Numbers.{most_threads};
ghost use Rattle.spec_log.specs.Log.{IsInput, AreFewBytes};
ghost use Rattle.spec_log.specs.Versions.{IsVersion, IsStandard, new_threads};
ghost use Rattle.spec_play.specs.Epochs.{commits_of as had_done};
ghost use Rattle.spec_play.specs.Noted.{as_log};
ghost use Rattle.spec_sphere.specs.promises.Sound.{AreEpochsIf};
ghost use Rattle.dl_kernel.specs.States.{state_in};
ghost use Rattle.dl_record.specs.Epochs.{IsBegun, base, base_state, due_in, epoch_begun};
ghost use Rattle.dl_record.specs.Recording.{in_epochs};
ghost use Rattle.dl_sphere.specs.Recorded.{CanRecord, CanInterrupt, commits_of, with_commit, with_interrupt};
ghost use Rattle.dl_sphere.specs.Setups.{epoch_setup, record_setup};
ghost use Rattle.dl_sphere.specs.Starting.{nothing_yet};

use crate::setup::Epochs;
use dl_entry::{Commit, Input, OutOfMemory};
use dl_kernel::{Snapshot, State};
use dl_mode::{Noting, OrderAndSize, OrderOnly, PicoLog};
use dl_record::{Base, Recorder};
use spec_log::{Log, ModeName};
use std::alloc::Global;
use std::marker::Model;

#[derive(Drop)]
pub(crate) enum Recorders {
    OrderSize(Recorder<OrderAndSize>),
    OrderOnly(Recorder<OrderOnly>),
    Picolog(Recorder<PicoLog>),
}

// Does the same with the recorder of whichever mode.
macro_rules! in_mode {
    ($recorders:expr, $one:ident => $done:expr) => {
        match $recorders {
            Recorders::OrderSize($one) => $done,
            Recorders::OrderOnly($one) => $done,
            Recorders::Picolog($one) => $done,
        }
    };
}

// A recorder of one of the modes.
#[derive(Drop)]
pub(crate) struct Recording {
    recorders: Recorders,
}

impl Model for Recording {
    ghost use Rattle.dl_sphere.specs.Recorded.{Recording, recording_of};

    ghost Value = { Recording };

    ghost view = { λ r. recording_of r.recorders };
}

impl Recording {
    // Nothing is noted yet, for a log of this version, and no epoch has begun.
    pub(crate) fn new(
        alloc: Global,
        version: u8,
        mode: ModeName,
        s: u32,
        epochs: Option<Epochs>,
    ) -> Result<Recording, OutOfMemory>
        requires version { IsVersion version (new_threads version) }
        requires s { IsStandard version s }
        requires epochs { AreEpochsIf version (option_map epoch_setup epochs) }
        ensures { IfOk result (λ r. r.in_epochs ≡ nothing_yet (record_setup version mode epochs) s) }
    {
        let recorders = match mode {
            ModeName::OrderSize => Recorders::OrderSize(recorder(alloc, version, s, epochs)?),
            ModeName::OrderOnly => Recorders::OrderOnly(recorder(alloc, version, s, epochs)?),
            ModeName::Picolog => Recorders::Picolog(recorder(alloc, version, s, epochs)?),
        };
        Ok(Recording { recorders })
    }

    pub(crate) fn mode(&self) -> ModeName
        ensures { result ≡ self.now.in_epochs.recorded.mode }
    {
        match &self.recorders {
            Recorders::OrderSize(_) => ModeName::OrderSize,
            Recorders::OrderOnly(_) => ModeName::OrderOnly,
            Recorders::Picolog(_) => ModeName::Picolog,
        }
    }

    // How many threads its log may have.
    pub(crate) fn threads(&self) -> u8
        ensures value { result ≡ new_threads self.now.in_epochs.recorded.version }
        ensures few { result ≤ most_threads }
    {
        in_mode!(&self.recorders, recorder => recorder.threads())
    }

    // Makes room for one commit with its records, one interrupt and one epoch.
    pub(crate) fn reserve(&mut self) -> Result<(), OutOfMemory>
        ensures same { self.new.in_epochs ≡ self.old.in_epochs }
        ensures room { OnOk result (IsTrue self.new.room) }
        ensures interrupt_room { OnOk result (IsTrue self.new.interrupt_room) }
        ensures epoch_room { OnOk result (IsTrue self.new.epoch_room) }
    {
        in_mode!(&mut self.recorders, recorder => recorder.reserve())
    }

    // Notes a commit with its record or its data. With room it isn't refused.
    pub(crate) fn commit(
        &mut self,
        commit: &Commit,
        short: bool,
        input: Option<&Input>,
        dma: Option<&[u8]>,
    ) -> Result<(), OutOfMemory>
        requires commit { CanRecord self.old.in_epochs commit.now short }
        requires input { IfSome input (λ i. IsInput i.now) }
        requires dma { IfSome dma (λ bytes. AreFewBytes bytes.now) }
        ensures ok { OnOk result (self.new.in_epochs
            ≡ with_commit commit.now short (option_map (λ i. i.now) input.entry) (option_map (λ b. b.now) dma.entry) self.old.in_epochs) }
        ensures err { OnErr result (self.new.in_epochs ≡ self.old.in_epochs) }
        ensures room { IsTrue self.old.room → IsOk result }
    {
        in_mode!(&mut self.recorders, recorder => recorder.commit(commit, short, input, dma))
    }

    // Notes an interrupt of a new moment. With room it isn't refused.
    pub(crate) fn interrupt(
        &mut self,
        thread: u8,
        index: u32,
        value: u32,
    ) -> Result<(), OutOfMemory>
        requires { CanInterrupt self.old.in_epochs thread index }
        ensures ok { OnOk result (self.new.in_epochs ≡ with_interrupt thread index value self.old.in_epochs) }
        ensures err { OnErr result (self.new.in_epochs ≡ self.old.in_epochs) }
        ensures room { IsTrue self.old.interrupt_room → IsOk result }
    {
        in_mode!(&mut self.recorders, recorder => recorder.interrupt(thread, index, value))
    }

    // Whether an epoch is to begin before the next commit or interrupt.
    pub(crate) fn is_due(&self) -> bool
        ensures { result ≡ due_in self.now.in_epochs.epochs (commits_of self.now.in_epochs) }
    {
        in_mode!(&self.recorders, recorder => recorder.is_due())
    }

    // An epoch begins at this state, and the earliest is given up if there are then more than are kept. With room it isn't
    // refused.
    pub(crate) fn begin_epoch(&mut self, state: State<Snapshot>) -> Result<(), OutOfMemory>
        requires due { IsTrue (due_in self.old.in_epochs.epochs (commits_of self.old.in_epochs)) }
        requires commits { state.commits ≡ commits_of self.old.in_epochs }
        requires done { (t : ℕ) → had_done (slice_get state.threads t) ≡ slice_index self.old.in_epochs.recorded.kept.done t }
        ensures ok { OnOk result (self.new.in_epochs ≡ epoch_begun (state_in state) self.old.in_epochs) }
        ensures commits { OnOk result (commits_of self.new.in_epochs ≡ commits_of self.old.in_epochs) }
        ensures err { OnErr result (self.new.in_epochs ≡ self.old.in_epochs) }
        ensures room { IsTrue self.old.epoch_room → IsOk result }
    {
        in_mode!(&mut self.recorders, recorder => recorder.begin_epoch(state))
    }

    // How many commits came before what is kept.
    pub(crate) fn first(&self) -> u32
        ensures { result ≡ base self.now.in_epochs.epochs }
    {
        in_mode!(&self.recorders, recorder => recorder.first())
    }

    // Where what is kept begins.
    pub(crate) fn base(&self) -> Base<'_>
        requires some { IsSome self.now.in_epochs.epochs }
        requires begun { IsBegun self.now.in_epochs.epochs (commits_of self.now.in_epochs) }
        ensures at { result.at ≡ base self.now.in_epochs.epochs }
        ensures state { base_state self.now.in_epochs.epochs ≡ Some (state_in result.state.now) }
    {
        in_mode!(&self.recorders, recorder => recorder.base())
    }

    // The log of what was noted, from the base on.
    pub(crate) fn finish(&self) -> Result<Log, OutOfMemory>
        ensures { IfOk result (λ log. log ≡ as_log self.now.in_epochs.recorded) }
    {
        in_mode!(&self.recorders, recorder => recorder.finish())
    }
}

// The recorder of one mode.
fn recorder<M: Noting>(
    alloc: Global,
    version: u8,
    s: u32,
    epochs: Option<Epochs>,
) -> Result<Recorder<M>, OutOfMemory>
    requires version { IsVersion version (new_threads version) }
    requires s { IsStandard version s }
    requires epochs { AreEpochsIf version (option_map epoch_setup epochs) }
    ensures { IfOk result (λ r. in_epochs M.mode r ≡ nothing_yet (record_setup version M.mode epochs) s) }
{
    match epochs {
        Some(epochs) => Recorder::with_epochs(alloc, version, s, epochs.size, epochs.keep),
        None => Recorder::new(alloc, version, s),
    }
}
