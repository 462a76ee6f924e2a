//! What is promised of commits without conflict. Each promise is a clause of a function that does nothing.
ghost use Rattle.spec_strata.specs.Footprints.{CommitsAreLocal, CommitsCommute, FootprintsStay};
ghost use Rattle.spec_strata.specs.Parallel.{ClearIsTested, ClearOnesAreParallel, ParallelOnesAreClear};
ghost use Rattle.spec_strata.specs.Parallel.{ParallelOnesStep, ParallelOnesInterleave, ParallelByPairs};
ghost use Rattle.spec_strata.specs.Touches.{TouchesBegin, TouchesTell, TouchesFollow};
ghost use Rattle.spec_strata.specs.Orders.{StrataStep, StrataPlayed, StrataInterleave, CanonicalOrderPlays, CanonicalPlays};
ghost use Rattle.spec_strata.specs.Orders.{PlaysStayAlike, TurnsAlike, OrdersTurn};
ghost use Rattle.spec_strata.specs.Pieces.{PiecesAreLocal, LastPartsGo};
ghost use Rattle.spec_strata.specs.Costs.{CostsGrow, CostsStep};
ghost use Rattle.spec_strata.specs.Blocks.{BlocksInterleave};
ghost use Rattle.spec_strata.specs.Relogged.{StrataRelog, BlocksRelog};
ghost use Rattle.spec_strata.specs.Canonical.{CanonicalIsLog};
ghost use Rattle.spec_strata.specs.OnImages.{ParallelStrataGo};
ghost use Rattle.spec_strata.specs.Checking.{AnswersAreFound, OneAnswer};
ghost use Rattle.spec_strata.specs.Making.{MadeAreParallel, MadeAreStrata};

// ---- commits

/// A chunk's commit is the same on two memories that agree on its footprint: its run, its footprint, and the kind of the
/// serial instruction before which it stops.
pub fn commits_are_local()
    ensures { CommitsAreLocal }
{}

/// Two commits without conflict do the same in either order, and leave the same memory.
pub fn commits_commute()
    ensures { CommitsCommute }
{}

/// Once a run has come to a serial instruction, its footprint is that of any more instructions.
pub fn footprints_stay()
    ensures { FootprintsStay }
{}

// ---- a stratum

/// A commit conflicts with none that another thread has done exactly if the test over words finds no conflict.
pub fn clear_is_tested()
    ensures { ClearIsTested }
{}

/// Commits that are tested one after the other are each what their thread does alone, and all of them are parallel.
pub fn clear_ones_are_parallel()
    ensures { ClearOnesAreParallel }
{}

/// Parallel commits pass that test in any order.
pub fn parallel_ones_are_clear()
    ensures { ParallelOnesAreClear }
{}

/// Of parallel commits, the next one of any thread is what the thread does alone, whatever was done before.
pub fn parallel_ones_step()
    ensures { ParallelOnesStep }
{}

/// Parallel commits leave the same memory and threads in any order.
pub fn parallel_ones_interleave()
    ensures { ParallelOnesInterleave }
{}

/// Commits are parallel exactly if no two of them, of different threads, conflict.
pub fn parallel_by_pairs()
    ensures { ParallelByPairs }
{}

/// At the start of a stratum no word is touched.
pub fn touches_begin()
    ensures { TouchesBegin }
{}

/// Who has touched each word tells whether the next commit conflicts with one that another thread has done.
pub fn touches_tell()
    ensures { TouchesTell }
{}

/// Once a commit without conflict is done, only the touches of its own words change.
pub fn touches_follow()
    ensures { TouchesFollow }
{}

// ---- a stratum in a play

/// Within a stratum the next commit of any thread that has some left goes as logged, and leaves the play with one commit
/// more of that thread.
pub fn strata_step()
    ensures { StrataStep }
{}

/// The play that does a stratum's commits in the order in which they were tested is the one that their numbers give.
pub fn strata_played()
    ensures { StrataPlayed }
{}

/// In every order a stratum's commits go as logged and without conflict, and leave the same play, except for the order of
/// commits of different threads.
pub fn strata_interleave()
    ensures { StrataInterleave }
{}

/// In canonical order, threads rising, the play within a stratum is the one that the numbers of commits give, with the order
/// of all commits too.
pub fn canonical_order_plays()
    ensures { CanonicalOrderPlays }
{}

/// So is the play of a log that names the threads in canonical order.
pub fn canonical_plays()
    ensures { CanonicalPlays }
{}

/// Plays that are alike stay alike, whatever commit follows, a serial step or a DMA too.
pub fn plays_stay_alike()
    ensures { PlaysStayAlike }
{}

/// If an order is logged, plays that are alike have the same turn.
pub fn turns_alike()
    ensures { TurnsAlike }
{}

/// Chunks leave threads live, so the threads that the order names within a stratum have their turns.
pub fn orders_turn()
    ensures { OrdersTurn }
{}

// ---- pieces and costs

/// Pieces of a commit within a stratum do on the memory of all threads what they do on the thread's own.
pub fn pieces_are_local()
    ensures { PiecesAreLocal }
{}

/// A commit that is done in pieces within a stratum is the whole commit.
pub fn last_parts_go()
    ensures { LastPartsGo }
{}

/// With fewer commits done a stratum has cost no more.
pub fn costs_grow()
    ensures { CostsGrow }
{}

/// Each commit costs itself and its instructions.
pub fn costs_step()
    ensures { CostsStep }
{}

// ---- whole logs

/// Strata that are done one after the other, each in any order, leave the play of canonical order.
pub fn blocks_interleave()
    ensures { BlocksInterleave }
{}

/// A stratum of a log is one of another log that says the same of its commits.
pub fn strata_relog()
    ensures { StrataRelog }
{}

/// A log that says the same goes through the same strata, in any order within each, and leaves the same play.
pub fn blocks_relog()
    ensures { BlocksRelog }
{}

// ---- strata

/// The log that has the order of some strata is a log of version 2.
pub fn canonical_is_log()
    ensures { CanonicalIsLog }
{}

/// If strata are parallel on an image, their log's play goes through them one after the other: each commit is of the kind
/// that its stratum holds, has its turn and goes as logged, and no chunk conflicts with another thread's in its stratum.
pub fn parallel_strata_go()
    ensures { ParallelStrataGo }
{}

/// The check of strata on an image has one answer.
pub fn one_answer()
    ensures { OneAnswer }
{}

/// And there is one, which is found by going through the commits.
pub fn answers_are_found()
    ensures { AnswersAreFound }
{}

/// The strata that a log is cut into are parallel on each image that the log fits, and their log's play leaves what the
/// log's play leaves: memory, threads, and each thread's commits, with their loads and outputs, in its order.
pub fn made_are_parallel()
    ensures { MadeAreParallel }
{}

/// And they are strata: their parts are within their ranges, and in order.
pub fn made_are_strata()
    ensures { MadeAreStrata }
{}
