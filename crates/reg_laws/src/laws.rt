//! The laws of rounds. They hold no code: each is the contract of a function that does nothing.

ghost use Rattle.reg_laws.specs.Laws.{CurrentsAreAwaited, HeardRepliesAreOwn, StampsAreUnique, WhatIsHeldWasStored, RepliesProveHolding, RepliesTellOfBefore, EndsAreHeld, RoundsSeeWhatWasHeld, RoundsSeeSteps, ReadsAreLegal, PlacesAreInside, EndsAreSeen, SessionsAgree, FixesSettle, EndsAreInTime, FixesComeFirst, EffectsFollowEntry, CoveredStandBefore, FixesEndSettled};

/// In every run each current exchange of an owner is one that it awaits: with a round under way it is
/// the owner's request of the round's phase to the replica of its slot, and an owner with nothing
/// under way awaits nothing.
#[tactic(auto, using(crate::proofs::Awaits::awaited_run))]
pub fn currents_are_awaited()
    ensures { CurrentsAreAwaited }
{}

/// In every run a reply that is heard in a round answers the round's own request to the replica of the
/// slot, as that replica's row does in some state.
#[tactic(auto, using(crate::proofs::Awaits::own_run))]
pub fn heard_replies_are_own()
    ensures { HeardRepliesAreOwn }
{}

/// In every run of a file whose scripts name its registers, one stamp is of one register, one value and
/// one writer: two stores that replicas were sent with the same stamp are of the same.
pub fn stamps_are_unique()
    ensures { StampsAreUnique }
{}

/// In every run of a file whose scripts name its registers, what a replica holds of a register, what any
/// context depends on, wherever it lies, and what a round of dependencies stores is the opening value or
/// what a call stored of that very register, in a store that some replica has handled; and values of one
/// register with one stamp are the same.
pub fn what_is_held_was_stored()
    ensures { WhatIsHeldWasStored }
{}

/// In every run of a file whose scripts name its registers and whose register services are numbered in
/// order: where a replica has replied to a store or to a round of dependencies it holds, now and later,
/// at least each stamp that it was asked to hold; and where it has shown a stamp it holds at least that.
pub fn replies_prove_holding()
    ensures { RepliesProveHolding }
{}

/// From one state of a run to every later one: a reply to a request that was sent after the first shows
/// at least the stamp that the replica held in it.
pub fn replies_tell_of_before()
    ensures { RepliesTellOfBefore }
{}

/// In every run of a file in order: where a write has ended, a majority of its register's replicas holds,
/// now and later, its stamp or a greater one; where a read has ended, a majority holds the stamp that it
/// read, or the read has left what it read as a dependency.
pub fn ends_are_held()
    ensures { EndsAreHeld }
{}

/// From one state of a run to every later one: a call that has sent its own first round since finds
/// every stamp that a majority of its register's replicas held in the first. A write's stamp is above it,
/// and a read's is not below it.
pub fn rounds_see_what_was_held()
    ensures { RoundsSeeWhatWasHeld }
{}

/// In every run of a file in order a call sees every stamp of its register whose step is not later than
/// that of its own first round: a write's stamp is above it, and a read's is not below it.
pub fn rounds_see_steps()
    ensures { RoundsSeeSteps }
{}

/// In every run of a file in order, over the placed calls of a register in the order of their keys: each
/// read that has ended replied the opening value, and then it stands before every write of the register,
/// or what a placed write wrote, and then that write stands before the read and no other one between.
pub fn reads_are_legal()
    ensures { ReadsAreLegal }
{}

/// In every run of a file in order: a placed write takes effect after the step of its own first round,
/// a read not before it, and no call sends its own first round before it begins.
pub fn places_are_inside()
    ensures { PlacesAreInside }
{}

/// From one state of a run to every later one: the stamp of a write that has ended in the first, and
/// the one on which a read that has ended found all agreed, has its step by then; a call that sends its
/// own first round after the first sees it.
pub fn ends_are_seen()
    ensures { EndsAreSeen }
{}

/// In every run what an owner has under way is of what it does: a register call's rounds are of its
/// operation, with its works done and nothing left that its copy depends on; a round of dependencies
/// stores what the copy depends on of the service that comes next; a stub settles what its stage left.
pub fn sessions_agree()
    ensures { SessionsAgree }
{}

/// From one state of a run to every later one: where an owner's round of dependencies is done in the
/// first, each stamp that its copy depends on, on the registers of that service, has its step by then;
/// a call that sends its own first round after the first sees it.
pub fn fixes_settle()
    ensures { FixesSettle }
{}

/// In every run of a file in order, by the dates of one state: a write that has ended was stored, and the step
/// of its stamp is not later than its end; nor is that of the stamp that a read has ended with, where all
/// agreed on it. A call that sends its own first round in a later step than that sees it.
pub fn ends_are_in_time()
    ensures { EndsAreInTime }
{}

/// From one state of a run to every later one: where an owner has a round of dependencies under way in the
/// first, and has sent its own first round since, each of those dependencies has its step before that round's,
/// whatever the owner has done in between.
pub fn fixes_come_first()
    ensures { FixesComeFirst }
{}

/// In every run of a file in order: a call that entered its service takes effect not before the step in which
/// it entered, and a write after it.
pub fn effects_follow_entry()
    ensures { EffectsFollowEntry }
{}

/// From one state of a run to every later one, over two placed register calls, of which the one had sent its
/// own first round by the first state and the other has since: the one stands before the other, where in that
/// state a majority held its stamp, or the other had a round of dependencies under way with one on its
/// register, of no smaller stamp.
pub fn covered_stand_before()
    ensures { CoveredStandBefore }
{}

/// In every run of a file in order: where an owner, a call or a fence statement or a stub, has a round of
/// dependencies under way in one state and none of that service after the next step, each of them has its
/// step before that step. A call that sends its own first round in that step or later sees it.
pub fn fixes_end_settled()
    ensures { FixesEndSettled }
{}
