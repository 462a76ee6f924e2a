//! A sink that takes one byte a call, and what a run says to it.
use super::recording::{RECORDED, SUMMARY, three_instructions};
use super::{RUN, answer, hold_all};
use dl_files::{MemSink, Sink, SinkError};
use spec_program::status::Status;
use std::alloc::Global;
use std::process::Abort;
use std::test::Fail;

/// Hands on the first byte of each piece.
#[derive(Drop)]
pub struct Narrow {
    inner: MemSink,
}

impl Narrow {
    pub fn new(alloc: Global, failing: &[u64]) -> Result<Narrow, SinkError> {
        Ok(Narrow {
            inner: MemSink::new(alloc, failing)?,
        })
    }

    pub fn taken(&self) -> &[u8] {
        self.inner.taken()
    }
}

impl Sink for Narrow {
    ghost use Rattle.std.specs.Prelude.{Some};

    ghost taken = { λ sink. Some sink.inner.taken };

    ghost count = { λ sink. sink.inner.calls.faults };

    fn faults(&self) -> u64 {
        self.inner.faults()
    }

    fn put(&mut self, bytes: &[u8]) -> Result<usize, SinkError> {
        self.inner.put(&bytes[..bytes.len().min(1)])
    }
}

// A sink that takes one byte a call takes the same, or one byte if its second call fails; the files are written whole.
#[test]
fn a_narrow_sink_takes_byte_after_byte(rt: HostRuntime) -> Result<(), Fail> {
    takes(&rt, rt.alloc(), &[], Status::Done, SUMMARY)?;
    takes(&rt, rt.alloc(), &[1], Status::Sink, &SUMMARY[..1])
}

fn takes(
    rt: &impl Abort,
    alloc: Global,
    puts: &[u64],
    status: Status,
    said: &[u8],
) -> Result<(), Fail> {
    let mut files = three_instructions(alloc)?;
    let mut out = Narrow::new(alloc, puts)?;
    assert!(rt; answer(alloc, RUN, &mut files, &mut out) == status);
    assert!(rt; out.taken() == said);
    hold_all(rt, alloc, &mut files, RECORDED)
}
