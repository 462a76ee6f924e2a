//! Strata as definitions: runs of chunk commits of which none conflicts with another thread's, so that they may be done in
//! any order; what of a log's play doesn't depend on that order; and the file that has such runs in place of a log's order.
#![tactic(auto)]

mod draft;
mod promise;
mod strata;
mod stratum;
mod touch;

pub use draft::StrataDraft;
pub use strata::{Strata, StrataParts};
pub use stratum::Stratum;
pub use touch::Touch;
