//! What is promised of runs. Each promise is a clause of a function that does nothing.
ghost use Rattle.spec_run.specs.Promise.{AccountsAgree, IntervalsAreSlices, RecordingsAreReproduced, RunsAreDescribed};
ghost use Rattle.spec_run.specs.Promise.{SchedulesLeaveRoom, SpheresAreDescribed, TailsArePlayed, TailsAreTails, TextsAreOfPoints};

/// Once a run is over, what a sphere of the machine holds is what its account tells: a plain or recorded one has the
/// commits, threads, request and memory of executing the points whole, one at a time, and a recorded one the log of
/// these points; one that is recorded in epochs has the tail, and its commits from the base on; a replayed one has the
/// commits and the end of its log's play, as far as it is replayed, and if it didn't diverge, the play's threads, request
/// and memory.
pub fn spheres_are_described()
    ensures { SpheresAreDescribed }
{}

/// Once a run is over, the machine has the points and the replies of the run, the devices are those of executing the
/// points whole, one at a time, and each point can be done as it says.
pub fn runs_are_described()
    ensures { RunsAreDescribed }
{}

/// The log of a recorded sphere fits its image, and the account of its play there is the recorded sphere's, byte for byte.
pub fn recordings_are_reproduced()
    ensures { RecordingsAreReproduced }
{}

/// The tail of a sphere that is recorded in epochs is the last part of its log, and the walk of it is complete: it does
/// the commits from the base on, and leaves what executing the points leaves.
pub fn tails_are_played()
    ensures { TailsArePlayed }
{}

/// What a run tells of a sphere that is recorded in epochs is a tail, if its words have 32 bits, its bytes are bytes and its
/// log is one.
pub fn tails_are_tails()
    ensures { TailsAreTails }
{}

/// The account of a replayed interval is the slice of its log's play on its image: from the interval's first commit up to
/// its last.
pub fn intervals_are_slices()
    ensures { IntervalsAreSlices }
{}

/// Two runs that agree on a sphere's image, memory size, log and interval write the same account of it, whatever else
/// differs.
pub fn accounts_agree()
    ensures { AccountsAgree }
{}

/// Two runs that differ at most in cores, depth, windows, buffers and signatures, and make the same points, have the same logs,
/// accounts and console.
pub fn texts_are_of_points()
    ensures { TextsAreOfPoints }
{}

/// After a schedule of at most 2^24 events each plain or recorded sphere has fewer than 2^24 commits.
pub fn schedules_leave_room()
    ensures { SchedulesLeaveRoom }
{}
