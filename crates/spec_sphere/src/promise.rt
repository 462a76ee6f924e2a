//! What is promised of one sphere. Each promise is a clause of a function that does nothing.
ghost use Rattle.spec_sphere.specs.promises.Judging.{LogsAreSeenAlike};
ghost use Rattle.spec_sphere.specs.promises.AsRecorded.{PlainMovesAsRecorded};

/// Recordings and plays look at a log in the same way: whether a chunk goes as logged depends on its thread's end and its number
/// of instructions alone; the log of what is kept has its sizes, its heads and the limits of these sizes; and at the end of a
/// play sizes are used by the numbers of the threads' commits as they are by the threads, short ones at any time; and an
/// interrupt is left over where not all are due.
pub fn logs_are_seen_alike()
    ensures { LogsAreSeenAlike }
{}

/// Whatever its threads, memory and log: a chunk, a DMA or an interrupt leaves in a plain sphere what it leaves in a recorded
/// one, except for the log, and stores the same words and leaves the same devices. So does a serial step, if both may have as
/// many threads.
pub fn plain_moves_as_recorded()
    ensures { PlainMovesAsRecorded }
{}
