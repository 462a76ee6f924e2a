//! What is promised of stores. Each promise is a clause of a function that does nothing.
ghost use Rattle.spec_query.specs.Promise.{NoChangeIsAlways, StoresAreTold};

/// Each commit of a play is told with the words that it stored to: each of them once, under the commit's number and actor,
/// with the value that the word has after the commit. Every other word keeps its value.
pub fn stores_are_told()
    ensures { StoresAreTold }
{}

/// That a word never had another value is answered exactly if it has the value in the image and after every commit.
pub fn no_change_is_always()
    ensures { NoChangeIsAlways }
{}
