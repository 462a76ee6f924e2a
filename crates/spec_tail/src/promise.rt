//! What is promised of the plays of tails. Each promise is a clause of a function that does nothing.
ghost use Rattle.spec_tail.specs.Promise.{WholeTailsPlayLogs, TailsPlayOn, TailsAreDirect};

/// A tail that has all of a recording plays as its log does, played on from the tail's state.
pub fn whole_tails_play_logs()
    ensures { WholeTailsPlayLogs }
{}

/// A tail that is the last part of a log plays on as the log does: after as many commits from the base on its memory, its
/// threads, its commits since the base and its turn or end are those of the log's play. If the log fits the image, the tail's
/// walk is complete, with the log's commits from the base on and all that the log's play leaves.
pub fn tails_play_on()
    ensures { TailsPlayOn }
{}

/// A tail's play counts from its base. It is the one that is told directly, with positions from the base on, after any number
/// of commits and wherever it ends: for every tail, also one that no recording left.
pub fn tails_are_direct()
    ensures { TailsAreDirect }
{}
