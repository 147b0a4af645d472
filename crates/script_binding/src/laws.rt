//! What holds of every script that is bound.

ghost use Rattle.script_binding.specs.Limited.{BoundScriptsHaveLimits};
ghost use Rattle.script_binding.specs.Named.{BoundScriptsAreNamed};

/// Each register, key, stage and pipe that a bound script names is one of the file's, and each key
/// and register carries its service.
#[tactic(auto, using(crate::proofs::AllNamed::bound_scripts_are_named))]
pub fn bound_scripts_are_named()
    ensures { BoundScriptsAreNamed }
{}

/// A bound script has at most 256 statements and 32 variables, lists of at most 8 members, repeats
/// of 1 to 1000 turns, and at most 4 blocks within one another.
pub fn bound_scripts_have_limits()
    ensures { BoundScriptsHaveLimits }
{}
