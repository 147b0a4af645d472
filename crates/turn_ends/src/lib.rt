//! Theory: owners stay of their stages in a turn, and fence statements and stubs that end in one have the
//! least times that they had before it; and a loss leaves owners alike.
#![tactic(auto)]

ghost use Rattle.turn_ends.specs.Alike.{LossesLeaveAlike};
ghost use Rattle.turn_ends.specs.Ends.{EndsKeepLeastTimes};

/// An owner stays of its stage in a turn, and a fence statement or a stub that is done in it has the least
/// times that it had before, whatever turn that is.
pub fn ends_keep_least_times()
    ensures { EndsKeepLeastTimes }
{}

/// A lost message leaves each owner its stage, its kind, and what it would leave unsettled.
pub fn losses_leave_owners_alike()
    ensures { LossesLeaveAlike }
{}
