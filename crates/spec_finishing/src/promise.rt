//! What is promised of finishing. Each promise is a clause of a function that does nothing.
ghost use Rattle.spec_finishing.specs.Ending.{FinishingEnds};
ghost use Rattle.spec_finishing.specs.Finished.{ReplaysAreFinished, StrataAreCompleted};
ghost use Rattle.spec_finishing.specs.Function.{FinishingIsAFunction, RunsAreShort, SetupsCanFinish};

/// After every list of events, if there are cores and slots, each replayed log has a standard size over 0, and strata are
/// parallel on their images: the events of finishing come to an end, and then no flight is left and every replay is complete
/// or has diverged. Each of them is done: none is bounced, denied, busy, full or out of turn. Each reduces what is left to
/// do, which is never below 0.
/// What takes effect at one of them is in a replayed sphere.
/// For each unit of the run's work there are at most as many of them as there are cores, plus six. The work is the
/// instructions, the commits, and the words stored by the kernel and by DMAs, of the replays' plays and of what the schedule
/// did in the other spheres.
pub fn finishing_ends()
    ensures { FinishingEnds }
{}

/// Whatever the schedule, after the events that finish it every replayed sphere has done the whole play that was asked for on
/// its image, that of its log, of an interval, or of the log of its strata: it has the play's commits, with their loads and
/// outputs, and the play's end.
/// Its memory, with no word in flight, and its threads are those of the play, unless that end is within a commit, of which
/// some pieces may be done.
pub fn replays_are_finished()
    ensures { ReplaysAreFinished }
{}

/// So a sphere that is replayed in strata, which are parallel on its image, is complete then, with the commits, the memory and
/// the threads of the play of their log.
pub fn strata_are_completed()
    ensures { StrataAreCompleted }
{}

/// The events that finish a run are a function of its setup and its schedule, and so are its points, its replies and its last
/// world: the next events one after another, up to the bound or any greater number, are those of `finishing_ends`.
pub fn finishing_is_a_function()
    ensures { FinishingIsAFunction }
{}

/// Every setup within its limits can be finished.
pub fn setups_can_finish()
    ensures { SetupsCanFinish }
{}

/// For every setup within its limits and every schedule of up to 2^32 events: these and the events that finish it are
/// together fewer than 2^63.
pub fn runs_are_short()
    ensures { RunsAreShort }
{}
