//! What is promised of replays. Each promise is a clause of a function that does nothing.
ghost use Rattle.spec_replay.specs.Promises.{ReplaysAgree, ReplaysArePlays, StoppedArePlayed, StrataAreFollowed, StrataNeverDiverge};

/// After every list of events, with any other spheres beside it and for logs of each mode: a sphere that is replayed, and not
/// in strata, has done whole commits of its log's play on its image, from the first one that it was asked for, the same ones
/// with the same loads and outputs, and maybe pieces of the next. Its threads and current memory are the play's there, moved
/// on by the pieces. It has stopped if the play or its interval has ended there, and otherwise only within the next commit, if
/// that diverges; and it has ended as the play then does.
pub fn replays_are_plays()
    ensures { ReplaysArePlays }
{}

/// After every list of events a sphere that is replayed in strata, which are parallel on its image, has done all commits of the
/// strata before the present one, and of that each thread's first ones, in whatever order, and maybe pieces of one more. They
/// are those of the play of the strata's log, with the same loads and outputs, and are kept in its order. Threads and current
/// memory are those that these commits leave, moved on by the pieces.
pub fn strata_are_followed()
    ensures { StrataAreFollowed }
{}

/// Such a sphere never diverges. It has stopped exactly if the commits of all strata are done, and is then complete. What is done
/// of a stratum are commits of the play of the strata's log: each thread's first ones, with their loads and outputs.
pub fn strata_never_diverge()
    ensures { StrataNeverDiverge }
{}

/// A replay that has stopped has done all commits of the play that it was asked for, its log's whole play or an interval of it,
/// or the play of its strata's log, with their loads and outputs, and has ended in the same way, for the same reason. Its
/// memory and threads are those of the play, unless it has ended within a commit, of which some pieces may be done.
pub fn stopped_replays_are_played()
    ensures { StoppedArePlayed }
{}

/// Two replays of the same commits of a log on the same image, neither of them in strata, after any events and whatever
/// differs in cores, depth, buffers, window, signatures, devices and other spheres: after the same number of whole commits these are
/// the same, and if both have stopped, they have done the same commits, with their loads and outputs, and have ended in the
/// same way. Memory and threads are the same too, unless that end is within a commit, of which one may have done more pieces.
pub fn replays_agree()
    ensures { ReplaysAgree }
{}
