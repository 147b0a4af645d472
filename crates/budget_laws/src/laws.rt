//! The laws of the budget. They hold no code: each is the contract of a function that does nothing.

ghost use Rattle.budget_laws.specs.Laws.{CostsAreEnough, LossesAreWithheld, StepsArePaid, TurnsArePaid};

/// A run of turns that costs no more than the stages of its file may, with eight for each message that was lost,
/// does not end with a full log, where that allows the budget.
pub fn costs_are_enough()
    ensures { CostsAreEnough }
{}

/// In every run whose steps are all turns of stages no more messages are lost than the file withholds.
pub fn losses_are_withheld()
    ensures { LossesAreWithheld }
{}

/// In every run the steps are no more than those of stages, stubs and kills, two for each request that was sent
/// and two for each message that came once more, less those that are still to come.
pub fn steps_are_paid()
    ensures { StepsArePaid }
{}

/// In every run whose steps are all turns of stages they are no more than those of stages, stubs and kills and two
/// for each request that was sent.
pub fn turns_are_paid()
    ensures { TurnsArePaid }
{}
