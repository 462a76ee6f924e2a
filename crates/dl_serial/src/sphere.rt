//! What a log is played on.
use dl_kernel::Past;
use dl_wbuf::Buffer;
use spec_query::Store;

/// The commits since the state from which the log is played, and their stores; the state now; and words over its memory.
#[derive(Drop)]
pub struct Sphere {
    pub past: Past,
    pub stores: Vec<Store>,
    pub words: Buffer,
}
