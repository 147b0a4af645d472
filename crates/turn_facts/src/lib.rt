//! Theory: what every run of a sound file keeps for the turns of its owners, and for its steps.
#![tactic(auto)]

ghost use Rattle.turn_facts.specs.Facts.{RunsKeepTurnFacts};
ghost use Rattle.turn_facts.specs.Steps.{RunsKeepStepFacts};

/// Every run of a sound file keeps what the turns of its owners need.
pub fn runs_keep_turn_facts()
    ensures { RunsKeepTurnFacts }
{}

/// Every run of a sound file keeps what its steps need besides.
pub fn runs_keep_step_facts()
    ensures { RunsKeepStepFacts }
{}
