//! The laws of times, pipes and of whom lines wait for. They hold no code: each is the contract of a function
//! that does nothing.

ghost use Rattle.size_laws.specs.Laws.{TimesAreBounded, PipesHaveRoom, LinesWaitForCalls};

/// In every run of a file that is sound, whose readings begin no later than they end and end below their
/// limit: no time is above that limit and one for each step that was made, wherever it lies; an earliest
/// end may be ahead of that by what a file can say at most.
pub fn times_are_bounded()
    ensures { TimesAreBounded }
{}

/// In every such run a pipe holds no more chunks than its capacity.
pub fn pipes_have_room()
    ensures { PipesHaveRoom }
{}

/// In every run whom a lock, a prepared attempt, a reply or a line names is a call, numbered from 1.
pub fn lines_wait_for_calls()
    ensures { LinesWaitForCalls }
{}
