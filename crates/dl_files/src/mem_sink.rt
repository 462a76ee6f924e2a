//! A sink in memory whose calls fail as a list says.
ghost use Rattle.std.specs.Prelude.{◌≡◌, ◌++◌, [], length, Some, IfOk, IfErr, OnOk, OnErr, IsErrOf};
ghost use Rattle.dl_files.specs.Calls.{unmade, FailsNext, passed, faulted};

use crate::calls::Calls;
use crate::{Sink, SinkError};
use std::alloc::Global;
use std::marker::Model;

/// A sink in memory some of whose calls fail. Calls of `put` are numbered from 0 in the order in
/// which they are made; one for which memory ran out takes no number. A call that fails takes nothing,
/// and any other takes the piece whole.
#[derive(Drop)]
pub struct MemSink {
    bytes: Vec<u8>,
    calls: Calls,
}

impl Model for MemSink {
    ghost use Rattle.dl_files.specs.Staged.{StagedSink};

    ghost Value = { StagedSink };

    ghost view = { λ sink. record { taken = sink.bytes.items; calls = sink.calls } };
}

impl MemSink {
    /// A sink that has taken nothing yet. The calls with the numbers in `failing` will fail.
    pub fn new(alloc: Global, failing: &[u64]) -> Result<Self, SinkError>
        ensures ok { IfOk result (λ sink. sink ≡ record { taken = []; calls = unmade failing.now }) }
        ensures only { IfErr result (λ e. e ≡ SinkError.OutOfMemory) }
    {
        Ok(Self {
            bytes: Vec::new(alloc),
            calls: Calls::new(alloc, failing)?,
        })
    }

    /// What was taken, in order.
    pub fn taken(&self) -> &[u8]
        ensures { result.now ≡ self.now.taken }
    {
        self.bytes.as_slice()
    }
}

impl Sink for MemSink {
    ghost taken = { λ sink. Some sink.taken };

    ghost count = { λ sink. sink.calls.faults };

    fn faults(&self) -> u64 {
        self.calls.faults()
    }

    fn put(&mut self, bytes: &[u8]) -> Result<usize, SinkError>
        ensures took { OnOk result (self.new ≡ record {
          taken = self.old.taken ++ bytes.now;
          calls = passed self.old.calls;
        }) }
        ensures whole { IfOk result (λ n. n ≡ length bytes.now) }
        ensures passes { OnOk result (FailsNext self.old.calls → ⊥) }
        ensures fails { IsErrOf result SinkError.Failed → FailsNext self.old.calls }
        ensures fault { IsErrOf result SinkError.Failed
            → self.new ≡ record self.old { calls = faulted self.old.calls } }
        ensures same { IsErrOf result SinkError.OutOfMemory → self.new ≡ self.old }
    {
        if self.calls.fails_next() {
            self.calls.fault();
            return Err(SinkError::Failed);
        }
        self.bytes.extend_from_slice(bytes)?;
        self.calls.pass();
        Ok(bytes.len())
    }
}
