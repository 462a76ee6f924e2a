//! What is promised of signatures, of telling cores, of searches over slots, and of a chunk's step.
ghost use Rattle.spec_engine.specs.Laws.{ChunksAreCovered, CoresAreTold, FindsTheLeast, SignaturesCover, SignaturesHit, StepsAreInstructions};

/// A signature covers all that was inserted.
pub fn signatures_cover()
    ensures { SignaturesCover }
{}

/// Two signatures of the same size that cover the same line hit, and an insert loses no hit.
pub fn signatures_hit()
    ensures { SignaturesHit }
{}

/// A core counts as told of a flight exactly if it was told of that flight.
pub fn cores_are_told()
    ensures { CoresAreTold }
{}

/// Searches give the lowest slot that passes a test.
pub fn finds_the_least()
    ensures { FindsTheLeast }
{}

/// A step of a chunk is one instruction of its run on the memory that it sees, or none.
pub fn steps_are_instructions()
    ensures { StepsAreInstructions }
{}

/// A chunk's writes cover the lines of its words, and its reads those of its loads.
pub fn chunks_are_covered()
    ensures { ChunksAreCovered }
{}
