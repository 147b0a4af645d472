//! The laws of sizes. They hold no code: each is the contract of a function that does nothing.

ghost use Rattle.count_laws.specs.Laws.{SizesAreCounted};

/// In every run a step adds one owner, thirty-two messages and eighteen entries at most; and a stage
/// has made no more acts than there are steps, an owner has lost no more messages of a target, a
/// transaction has begun no more attempts, and a pipe has given out no more numbers.
pub fn sizes_are_counted()
    ensures { SizesAreCounted }
{}
