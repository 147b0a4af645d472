//! Theory: what steps need to know of the parts of the machine's state.
#![tactic(auto)]

ghost use Rattle.std.specs.Prelude.{ℕ};
ghost use Rattle.pipeline_lang.specs.declared.config.Config.{Config};
ghost use Rattle.rss_wire.specs.declared.message.Fate.{Fate};
ghost use Rattle.rss_wire.specs.Messages.{meets};
ghost use Rattle.world_parts.specs.Parts.{Staging, Traffic, Stores};
ghost use Rattle.parts_ready.specs.Ready.{AreReady};

/// Parts that are ready for a step stay so where a message meets its fate in it.
pub fn fates_leave_parts_ready()
    ensures { (c : Config) (g : Staging) (t : Traffic) (d : Stores) (m : ℕ) (f : Fate) → AreReady c g t d → AreReady c g (record t { net = meets t.net m f }) d }
{}
