//! The law of what is awaited. It holds no code: it is the contract of a function that does nothing.

ghost use Rattle.await_laws.specs.Laws.{OverIsTold};

/// It is told of a stage that it is over, where it is; or where it lives and has a call or a fence statement under
/// way that waits for no time, sleeps on nobody, and awaits replies alone, while no message of the stage is to come.
/// In particular it is never told of a live stage between two statements, whatever the state. That the second case
/// does not come about in a run, since each exchange that is current has a message to come, is not shown here.
pub fn over_is_told()
    ensures { OverIsTold }
{}
