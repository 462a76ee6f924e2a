//! A tail of which a part was read.
use dl_entry::{Request, Sequence};
use spec_isa::thread::Parts;
use spec_log::Draft;

/// What the header of a tail's file says: how many threads there are at the base; the base, in commits; the thread that
/// committed last before it; the outstanding DMA request; and the size of the memory, in bytes.
#[derive(Clone, Copy, Debug)]
pub struct TailHeader {
    pub present: u8,
    pub base: u32,
    pub last: Option<u8>,
    pub request: Option<Request>,
    pub size: u32,
}

/// 32 bytes of memory, the first at 32 times the number.
#[derive(Clone, Copy, Debug)]
pub struct Row {
    pub number: u32,
    pub bytes: [u8; 32],
}

/// What was read of a tail so far.
#[derive(Debug, Drop)]
pub struct TailDraft {
    pub header: TailHeader,
    pub threads: Sequence<Parts>,
    pub rows: Sequence<Row>,
    pub log: Draft,
}
