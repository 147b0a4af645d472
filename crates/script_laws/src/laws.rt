//! Laws of the walk of a stage's script along a history, each as a function without a body.

ghost use Rattle.std.specs.Prelude.{◌≡◌, ℕ, suc, ◌<◌, ◌↔◌, List, [], ◌∷◌, take, Option, Some, Contains};
ghost use Rattle.pipeline_lang.specs.declared.config.Config.{Config};
ghost use Rattle.pipeline_lang.specs.Config.{script_of};
ghost use Rattle.rss_model.specs.declared.history.Entry.{Entry};
ghost use Rattle.rss_model.specs.Walk.{Walk, first_walk};
ghost use Rattle.rss_model.specs.Walked.{Silent, Makes, Takes};
ghost use Rattle.rss_model.specs.Scripts.{giver_of};
ghost use Rattle.script_laws.specs.Steps.{silent_step};
ghost use Rattle.script_laws.specs.Entries.{entry_step};
ghost use Rattle.script_laws.specs.Weights.{weigh};
ghost use Rattle.script_laws.specs.Paths.{tells, take_step};
ghost use Rattle.script_laws.specs.States.{AreAll, Behind};

/// Without an entry a walk comes to one state at most, which the step function gives.
pub fn silent_steps_are_one()
    ensures { (config : Config) (h : List Entry) (stage : ℕ) (w v : Walk) →
        Silent config h stage w v ↔ (silent_step config h stage w ≡ Some v) }
{}

/// By an entry that takes nothing a walk comes to one state at most, which the step function gives.
pub fn entries_lead_to_one()
    ensures { (config : Config) (h : List Entry) (stage place : ℕ) (e : Entry) (w v : Walk) →
        Makes config h stage place e w v ↔
        (entry_step config h stage (take place h) e w ≡ Some v) }
{}

/// Steps without an entry come to an end: a bound falls with each.
pub fn silent_steps_end()
    ensures { (config : Config) (h : List Entry) (stage : ℕ) (w v : Walk) →
        Silent config h stage w v →
        weigh (script_of config stage) v.cursor < weigh (script_of config stage) w.cursor }
{}

/// What a walk takes is what a giver told where it stood, and where that leads is one state at most.
pub fn takes_are_of_what_was_told()
    ensures { (config : Config) (h : List Entry) (stage pipe number : ℕ) (giving w v : Walk) →
        Takes config h stage pipe number giving w v ↔
        ((value : Option ℕ) × (tells config (giver_of config pipe) giving pipe number ≡ Some value) ×
        (take_step config stage w pipe number value ≡ Some v)) }
{}

/// The states of a walk at each place of a history are those that these steps give: at first the
/// beginning, and behind each entry those that pass it by and those to which it leads.
pub fn states_are_there()
    ensures first { (config : Config) (h : List Entry) (stage : ℕ) →
        AreAll config h stage 0 (first_walk config stage ∷ []) }
    ensures next { (config : Config) (h : List Entry) (stage n : ℕ) (bases next : List Walk) →
        AreAll config h stage n bases →
        ((v : Walk) → Contains next v ↔ Behind config h stage n bases v) →
        AreAll config h stage (suc n) next }
{}
