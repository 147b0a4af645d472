//! Theory: the rows of an owner are turns of its own record.
#![tactic(auto)]

ghost use Rattle.turn_laws.specs.Turns.{BeginningIsATurn, HearingIsATurn, ActingIsATurn, StubsTakeTurns};
ghost use Rattle.turn_laws.specs.Losses.{LosingIsAMove, LossesMoveTraffic};

/// An owner that goes through its works takes a turn.
pub fn beginning_is_a_turn()
    ensures { BeginningIsATurn }
{}

/// What an owner hears is a turn.
pub fn hearing_is_a_turn()
    ensures { HearingIsATurn }
{}

/// What an owner does by itself is a turn.
pub fn acting_is_a_turn()
    ensures { ActingIsATurn }
{}

/// The step of a stub is a turn.
pub fn stubs_take_turns()
    ensures { StubsTakeTurns }
{}

/// A loss is a move of owners and the net with its end.
pub fn losing_is_a_move()
    ensures { LosingIsAMove }
{}

/// It leaves all but owners and the net as they are.
pub fn losses_move_alone()
    ensures { LossesMoveTraffic }
{}
