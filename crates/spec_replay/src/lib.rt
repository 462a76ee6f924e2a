//! Every replay is the play of its log, whatever the timing: a sphere that is replayed on cores, with speculation, flights and
//! pieces, does whole commits of the play and no others; and all replays of the same log on the same image agree.
#![tactic(auto)]

mod promise;

pub use promise::{
    replays_agree, replays_are_plays, stopped_replays_are_played, strata_are_followed,
    strata_never_diverge,
};
