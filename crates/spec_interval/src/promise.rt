//! What is promised of slices. Each promise is a clause of a function that does nothing.
ghost use Rattle.spec_interval.specs.Promise.{SlicesAreAccounts, SlicesJoin, SlicesResume, SlicesStopAtCount};

/// A slice doesn't depend on the state from which it is played, at or before its first commit.
pub fn slices_resume()
    ensures { SlicesResume }
{}

/// The slice of all commits of a log is the account of its play, except for the word `at` in the last line if the play is
/// complete.
pub fn slices_are_accounts()
    ensures { SlicesAreAccounts }
{}

/// A slice is the lines of its commits up to any number within it, and the slice from there.
pub fn slices_join()
    ensures { SlicesJoin }
{}

/// A number over the log's count means the count.
pub fn slices_stop_at_count()
    ensures { SlicesStopAtCount }
{}
