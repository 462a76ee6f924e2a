//! What is promised of plays and logs. Each promise is a clause of a function that does nothing.
ghost use Rattle.spec_play.specs.Lasts.{PlaysKeepLasts};
ghost use Rattle.spec_play.specs.Migration.{MigrationKeepsPlays};
ghost use Rattle.spec_play.specs.Noted.{RecordersKeepLogs};
ghost use Rattle.spec_play.specs.Resuming.{PlaysGoOn, PlaysResume, StatesAreBounded};
ghost use Rattle.spec_play.specs.Intervals.{IntervalsAreWithin};
ghost use Rattle.spec_play.specs.Walks.{WalksArePlays};

/// With each commit, record and interrupt that is noted, the log of what a recorder keeps grows as a recording's log does.
pub fn recorders_keep_logs()
    ensures { RecordersKeepLogs }
{}

/// A walk of up to some number of commits does the first commits of the log's play. It has ended, in the same way as the
/// play, exactly if the play ends below that number of commits or the log has no more commits than that; and then it leaves
/// what the play leaves. Else it has stopped with that number of commits done.
pub fn walks_are_plays()
    ensures { WalksArePlays }
{}

/// After any number of commits of a play, the thread that committed last is the last one among the commits, with DMAs
/// passed over.
pub fn plays_keep_lasts()
    ensures { PlaysKeepLasts }
{}

/// In version 2, with as many threads as before, a log plays on every image as it did: after any number of commits, and to
/// its end. So it fits an image that it fitted before.
pub fn migration_keeps_plays()
    ensures { MigrationKeepsPlays }
{}

/// To play on from a play is to play longer.
pub fn plays_go_on()
    ensures { PlaysGoOn }
{}

/// The play from a state of a log's play does what that play does next: after as many commits its state, its turn or end,
/// and the commits since then are the same.
pub fn plays_resume()
    ensures { PlaysResume }
{}

/// After some number of commits of a log's play, no more commits are done than the log has; no thread has done more than that
/// number, and no more interrupts were taken.
pub fn states_are_bounded()
    ensures { StatesAreBounded }
{}

/// The interval that a plan asks for is in order and within the log, if the plan names its ends in order.
pub fn intervals_are_within()
    ensures { IntervalsAreWithin }
{}
