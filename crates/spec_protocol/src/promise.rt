//! What is promised of the protocol. Each promise is a clause of a function that does nothing.
ghost use Rattle.spec_protocol.specs.promises.Alike.{EventsAreAlike};
ghost use Rattle.spec_protocol.specs.promises.Committers.{CommittersAreTold};
ghost use Rattle.spec_protocol.specs.promises.ConsoleBytes.{ConsoleIsPutOut};
ghost use Rattle.spec_protocol.specs.promises.Kept.{EpochsAreOfPlays, RecordingsAreKept, TailsAreOfPoints};
ghost use Rattle.spec_protocol.specs.promises.Lasts.{SpheresKeepLasts};
ghost use Rattle.spec_protocol.specs.promises.Promises.{CommitsAreSerial, InvariantsHold, MovesAreSerial, SizesAreKept};
ghost use Rattle.spec_protocol.specs.promises.Logs.{LogsAreFresh};
ghost use Rattle.spec_protocol.specs.promises.LogsOfPoints.{LogsAreOfPoints};
ghost use Rattle.spec_protocol.specs.promises.Notable.{NotesFitLogs};
ghost use Rattle.spec_protocol.specs.promises.OneChunk.{CoresHaveOneChunk};
ghost use Rattle.spec_protocol.specs.promises.Pieces.{PiecesCountNothing, PiecesStayTogether, StoppedSpheresStay};
ghost use Rattle.spec_protocol.specs.promises.PlayingBack.{LogsPlayBack};
ghost use Rattle.spec_protocol.specs.promises.Replying.{AsksAreGranted, GrantsAreClear, PointsAreMade};
ghost use Rattle.spec_protocol.specs.promises.Sound.{EventsKeepSound, WorldsAreSound};
ghost use Rattle.spec_protocol.specs.promises.Youngers.{HitsSpareTheOlder, InterruptsAbandon, YoungersBegin};

/// For every setup and every list of events, in any order: the plain and recorded spheres, with their threads, requests,
/// current memories, commits and logs, and the devices with the console, are those of executing the serialisation points
/// whole and in their order; and each point can be done as it says.
pub fn commits_are_serial()
    ensures { CommitsAreSerial }
{}

/// For every setup and every list of events, in any order: the spheres' threads, progress, roles and current memories, and
/// the devices, are those of doing whole and in their order all that took effect, pieces and divergences too; and each
/// of these moves can be done as it says.
pub fn moves_are_serial()
    ensures { MovesAreSerial }
{}

/// After every list of events: no two flying words of a sphere are one, and a flight's signature covers the lines of its
/// words; a core's thread is on no other core, its older chunk began from the thread's state, and its younger one, if there
/// is one, from the state that the older's commit will leave. Each has signatures that cover what it loaded and stored,
/// stands to its limit as its closing says, and is current where no flight of its sphere that the core was not told of hits
/// its reads: its run is that of the current memory, for the younger with the older's stores laid over it, and where it was
/// closed before a serial instruction, or before a store that finds no room, that instruction comes next.
pub fn invariants_hold()
    ensures { InvariantsHold }
{}

/// After every list of events of a machine of depth 1: no core has a younger chunk, and no step begins one.
pub fn cores_have_one_chunk()
    ensures { CoresHaveOneChunk }
{}

/// Whatever the world and the event: a core that holds one chunk holds two afterwards exactly if the event is a step of that
/// core, the machine has depth 2, the sphere goes on, and the chunk was closed so that one may follow: by its limit, or, except in
/// a replay, because it found no room or was cut off.
pub fn youngers_begin()
    ensures { YoungersBegin }
{}

/// A flight that hits what the younger chunk has read or written, and not the older, squashes the younger alone: the older is as
/// it was.
pub fn hits_spare_the_older()
    ensures { HitsSpareTheOlder }
{}

/// After every list of events: if a core with two chunks is granted its older one, the younger becomes the older exactly if the
/// log that is replayed has no interrupt of the thread there, or none is replayed. Otherwise the younger is abandoned.
pub fn interrupts_abandon()
    ensures { InterruptsAbandon }
{}

/// After every list of events there are as many spheres, cores and slots as at first, and the sizes are the same.
pub fn sizes_are_kept()
    ensures { SizesAreKept }
{}

/// Every event keeps what is sound of a world, for a setup within its limits, where the invariant holds.
pub fn events_keep_sound()
    ensures { EventsKeepSound }
{}

/// For every setup within its limits and every list of events: flying and held words lie inside the memory of their sphere
/// and store bytes; a memory keeps its length and holds bytes, and an outstanding request lies inside it; a sphere has a
/// thread and no more threads than it may, and no more commits than there were events; and a replay uses no more of its log
/// than there is.
pub fn worlds_are_sound()
    ensures { WorldsAreSound }
{}

/// Where a world is sound and the invariant holds: what is noted of the next commit of a plain or recorded sphere fits a log.
/// Its thread is one of those that the log may have, its chunk no larger than a standard one and over 0 where it is short;
/// what the devices answer to its step is an input of a log, and what they give a DMA are at most 4,096 bytes.
pub fn notes_fit_logs()
    ensures { NotesFitLogs }
{}

/// Whatever the world and the event: a point is made exactly where the reply is Granted, Piece, DmaDone or Raised; it is of
/// the event's moment and is kept after the earlier ones; and the event is counted with its reply.
pub fn points_are_made()
    ensures { PointsAreMade }
{}

/// After every list of events that leaves no flight standing: the ask of a closed chunk of a plain or recorded sphere is
/// granted, or it is another thread's turn in a recording in picolog.
pub fn asks_are_granted()
    ensures { AsksAreGranted }
{}

/// After every list of events: no ask is granted, whole or as a piece, where a word that the chunk stored or loaded is left
/// in a flight of its sphere.
pub fn grants_are_clear()
    ensures { GrantsAreClear }
{}

/// After every list of events: the log of a recorded sphere, as it then is, fits the sphere's image, and its play, one whole
/// commit at a time, leaves the sphere's current memory, its threads, its commits and its request.
pub fn logs_play_back()
    ensures { LogsPlayBack }
{}

/// After every list of events: the log that a recorded sphere has kept is the one of its serialisation points, with the
/// records and the DMA data that came from outside as they were executed one at a time.
pub fn logs_are_of_points()
    ensures { LogsAreOfPoints }
{}

/// After every list of events: the log that a recorded sphere has kept counts the sphere's commits, has no interrupt of a
/// thread at a later number of commits than the thread's, and at that number only where the thread is masked. So the next
/// interrupt is of a moment that the log doesn't have.
pub fn logs_are_fresh()
    ensures { LogsAreFresh }
{}

/// After every list of events: where a replayed sphere that hasn't stopped has done pieces of a commit, it is one thread's
/// turn, and whatever event comes, only chunks of that thread take effect in the sphere: no other commit, serial step, DMA
/// or interrupt stands between two pieces.
pub fn pieces_stay_together()
    ensures { PiecesStayTogether }
{}

/// After every list of events: whatever event comes, nothing takes effect in a replayed sphere that is complete or has
/// diverged.
pub fn stopped_spheres_stay()
    ensures { StoppedSpheresStay }
{}

/// After every list of events: a piece of a replayed sphere's commit counts as no commit and leaves the request as it is. The
/// turn stays, or in strata goes to the piece's thread.
pub fn pieces_count_nothing()
    ensures { PiecesCountNothing }
{}

/// Whatever the world: of a flight that an ask begins the core that asks is told, and no other; of one that a DMA begins
/// no core is.
pub fn committers_are_told()
    ensures { CommittersAreTold }
{}

/// After every list of events: of each sphere, plain, recorded or replayed, except in strata, the thread that committed last is
/// the last one among its commits, DMAs passed over; or, if no thread is among them, the one that committed last before them.
pub fn spheres_keep_lasts()
    ensures { SpheresKeepLasts }
{}

/// After every list of events: the bytes of the console are those that the commits of plain and recorded spheres have put
/// out on channel 8, in the order of the points.
pub fn console_is_put_out()
    ensures { ConsoleIsPutOut }
{}

/// In two worlds that differ only in what their recordings in epochs still have of earlier commits, every event answers the
/// same, makes the same point and the same move, and leaves worlds that differ in nothing else; the invariant holds of both or
/// of neither. An epoch that begins, and one that is given up, leave a world that differs in nothing else.
pub fn events_are_alike()
    ensures { EventsAreAlike }
{}

/// The whole log of a recorded sphere, without what comes before one of its commits, is the log of the points after that commit:
/// an interrupt that comes between the commits belongs to it, and one that was raised before doesn't.
pub fn tails_are_of_points()
    ensures { TailsAreOfPoints }
{}

/// If an event comes only after epochs that are due have begun: a recorded sphere has the commits and the log from its earliest
/// kept epoch on, and each kept epoch is the state right after the commit before it. Once none is due, the earliest of them is
/// the one that the number of commits asks for. All else is as if nothing was given up.
pub fn recordings_are_kept()
    ensures { RecordingsAreKept }
{}

/// The play of the whole log of a recorded sphere comes, after as many commits as there are before an epoch, to the state in
/// which the epoch begins, with the inputs used that were noted before: only that it has taken already those interrupts that were
/// raised right after that state.
pub fn epochs_are_of_plays()
    ensures { EpochsAreOfPlays }
{}
