//! Theory: the machine's state in four parts: clock, staging, traffic and stores.
#![tactic(auto)]

ghost use Rattle.std.specs.Prelude.{◌≡◌};
ghost use Rattle.rss_machine.specs.State.{State};
ghost use Rattle.world_parts.specs.Frames.{TrafficMoves, StagingMoves, MovesSplit};
ghost use Rattle.world_parts.specs.Parts.{assembled, clock_of, staging_of, traffic_of, stores_of};

/// A state is what its four parts make.
pub fn states_are_their_parts()
    ensures { (s : State) → assembled (clock_of s) (staging_of s) (traffic_of s) (stores_of s) ≡ s }
{}

/// A move of owners and the net leaves the other parts as they are.
pub fn traffic_moves_alone()
    ensures { TrafficMoves }
{}

/// A move of stages, pipes and the history leaves the other parts as they are.
pub fn staging_moves_alone()
    ensures { StagingMoves }
{}

/// A move over two parts is its two halves beside each other.
pub fn moves_split()
    ensures { MovesSplit }
{}
