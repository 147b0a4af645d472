//! Theory: how much a turn of an owner sends and plans at most.
#![tactic(auto)]

ghost use Rattle.turn_sizes.specs.Sizes.{TurnsAreFew, BeginningsAreFew};

/// In every run a turn sends no more than thirty-two requests and plans no more than sixteen fences.
pub fn turns_are_few()
    ensures { TurnsAreFew }
{}

/// So are the turns by which owners begin, of every sound file.
pub fn beginnings_are_few()
    ensures { BeginningsAreFew }
{}
