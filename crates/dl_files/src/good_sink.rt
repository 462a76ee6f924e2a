//! A sink in memory that never fails.
ghost use Rattle.std.specs.Prelude.{◌≡◌, ◌++◌, [], length, Some, IfOk, IfErr, OnOk, OnErr};

use crate::{Sink, SinkError};
use std::alloc::Global;
use std::marker::Model;

/// A sink in memory, seen as what it took. It has no faults: the count is 0 and no call fails. It
/// takes each piece whole, and its only refusal is that memory ran out.
#[derive(Drop)]
pub struct GoodSink {
    bytes: Vec<u8>,
}

impl Model for GoodSink {
    ghost use Rattle.std.specs.Prelude.{ℕ, List};

    ghost Value = { List ℕ };

    ghost view = { λ sink. sink.bytes.items };
}

impl GoodSink {
    /// A sink that has taken nothing yet, and keeps what it takes in memory from `alloc`.
    pub fn new(alloc: Global) -> Self
        ensures { result ≡ [] }
    {
        Self {
            bytes: Vec::new(alloc),
        }
    }

    /// What was taken, in order.
    pub fn taken(&self) -> &[u8]
        ensures { result.now ≡ self.now }
    {
        self.bytes.as_slice()
    }
}

impl Sink for GoodSink {
    ghost taken = { λ sink. Some sink };

    ghost count = { λ _. 0 };

    fn faults(&self) -> u64
        ensures { result ≡ 0 }
    {
        0
    }

    fn put(&mut self, bytes: &[u8]) -> Result<usize, SinkError>
        ensures took { OnOk result (self.new ≡ self.old ++ bytes.now) }
        ensures whole { IfOk result (λ n. n ≡ length bytes.now) }
        ensures only { IfErr result (λ e. e ≡ SinkError.OutOfMemory) }
        ensures same { OnErr result (self.new ≡ self.old) }
    {
        self.bytes.extend_from_slice(bytes)?;
        Ok(bytes.len())
    }
}
