//! What is promised of commands. Each promise is a clause of a function that does nothing.
ghost use Rattle.spec_program.specs.Agreement.{AccountsAgree, IntervalsAreTold, RecordingsAreReplayed, TailsAreWalked};
ghost use Rattle.spec_program.specs.Drilled.{DrillsAreReproduced};
ghost use Rattle.spec_program.specs.Promise.{TasksAreRun};

/// For all words that run a plan, and all contents of files: where the plan and the files give a task, the outcome is that of
/// running it, and each of its points can be done whole, as it says; and where the outcome is no refusal, there is a task.
pub fn tasks_are_run()
    ensures { TasksAreRun }
{}

/// Two tasks that replay a sphere of the same image and memory size by the same log and interval, or the same strata, write equal
/// accounts of it, whatever else their plans and files say.
pub fn accounts_agree()
    ensures { AccountsAgree }
{}

/// Where one task records a sphere whole and another replays that log on the same image, both write the same account.
pub fn recordings_are_replayed()
    ensures { RecordingsAreReplayed }
{}

/// The account of a sphere that replays an interval is, byte for byte, the text that `interval` tells of the same log, image and
/// ends.
pub fn intervals_are_told()
    ensures { IntervalsAreTold }
{}

/// What a task writes as the log of a sphere that it records in epochs is a tail, and the walk of this tail has the account
/// that it writes, byte for byte.
pub fn tails_are_walked()
    ensures { TailsAreWalked }
{}

/// For every number, the replay of a drill has the account of its recording, and its log's play is complete.
pub fn drills_are_reproduced()
    ensures { DrillsAreReproduced }
{}
