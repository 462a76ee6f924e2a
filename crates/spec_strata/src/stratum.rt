//! The commits of a log, run by run.
use dl_entry::Sequence;

/// A run of commits: chunks of which none conflicts with another thread's, as their number by thread; or a thread's serial
/// step; or a DMA.
#[derive(Debug, Drop)]
pub enum Stratum {
    Chunks(Sequence<u8>),
    Serial(u8),
    Dma,
}
