//! A sink over an output, which is all that is trusted: how bytes are handed to it is proved of any output that tells what it
//! holds.
ghost use Rattle.std.specs.Prelude.{◌≡◌, None, ◌≤◌, ◌<◌, length, IfOk, IfErr, IfSome, OnOk, OnErr};
ghost use Rattle.dl_files.specs.Count.{Rose, next};
ghost use Rattle.dl_files.specs.Taken.{with_taken};

use crate::streams::write_some;
use crate::{Os, Output, Sink, SinkError};
use std::marker::Model;

/// An output as a sink, seen as what it holds, if it tells, how many of its calls were refused, and its count of faults. It keeps nothing, so it needs no memory.
#[derive(Drop)]
pub struct OutputSink<O: Output> {
    output: O,
    faults: u64,
}

/// The standard output of `R`.
pub type StdSink<R> = OutputSink<Os<R>>;

impl<O: Output> Model for OutputSink<O> {
    ghost use Rattle.dl_files.specs.Told.{Out};

    ghost Value = { Out };

    ghost view = { λ sink. record {
      taken = O.holds sink.output;
      refusals = O.refusals sink.output;
      faults = sink.faults;
    } };
}

impl<R: Print> OutputSink<Os<R>> {
    /// The standard output of `rt`, with no fault yet.
    pub fn new(rt: R) -> Self
        ensures { result ≡ record { taken = None; refusals = 0; faults = 0 } }
    {
        Self::over(Os::new(rt))
    }
}

impl<O: Output> OutputSink<O> {
    /// This output, with no fault yet.
    pub fn over(output: O) -> Self
        ensures { result ≡ record { taken = O.holds output; refusals = O.refusals output; faults = 0 } }
    {
        Self { output, faults: 0 }
    }
}

impl<O: Output> Sink for OutputSink<O> {
    ghost taken = { λ sink. sink.taken };

    ghost count = { λ sink. sink.faults };

    fn faults(&self) -> u64 {
        self.faults
    }

    fn put(&mut self, bytes: &[u8]) -> Result<usize, SinkError>
        ensures took { IfOk result (λ n. self.new.taken ≡ with_taken n bytes.now self.old.taken) }
        ensures within { IfOk result (λ n. n ≤ length bytes.now) }
        ensures some { IfOk result (λ n. 0 < length bytes.now → 0 < n) }
        ensures same { OnErr result (self.new.taken ≡ self.old.taken) }
        ensures ok { OnOk result (self.new.faults ≡ self.old.faults) }
        ensures only { IfErr result (λ e. e ≡ SinkError.Failed) }
        ensures refused { OnErr result (self.new.faults ≡ next self.old.faults) }
        ensures counted { IfSome self.old.taken
            (λ _. OnErr result (Rose self.old.refusals self.new.refusals)) }
    {
        match write_some(&mut self.output, bytes) {
            Ok(n) => Ok(n),
            Err(_) => {
                self.faults = self.faults.saturating_add(1);
                Err(SinkError::Failed)
            }
        }
    }
}
