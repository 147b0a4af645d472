//! The words over stages and pipes alone say what the machine's say.

ghost use Rattle.world_stages.specs.Laws.{WaitsAsTheMachine, AllStandAsTheMachine};

/// A wait is the machine's, where the spare copy is joined with the context of the child's exit.
#[tactic(auto, using(crate::proofs::Settling::waits_over_parts))]
pub fn waits_as_the_machine()
    ensures { WaitsAsTheMachine }
{}

/// Stages stand, are settled and can make statements as the machine says, where the ends of stubs are
/// told as they are.
#[tactic(auto, using(crate::proofs::Settling::all_stand))]
pub fn stands_as_the_machine()
    ensures { AllStandAsTheMachine }
{}
