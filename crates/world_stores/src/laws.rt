//! What is served here is served by the machine.

ghost use Rattle.std.specs.Prelude.{◌≡◌, ℕ};
ghost use Rattle.rss_names.specs.declared.service.Target.{Target};
ghost use Rattle.rss_wire.specs.declared.messages.Request.{Request};
ghost use Rattle.rss_wire.specs.Messages.{answers};
ghost use Rattle.rss_machine.specs.Effect.{request_comes};
ghost use Rattle.truetime.specs.Reading.{Reading};
ghost use Rattle.world_parts.specs.Parts.{Clock, Staging, Traffic, Stores, assembled, stores_of, in_stores};
ghost use Rattle.world_stores.specs.Serving.{serves, reply_at};

/// A request that comes to its target changes shards, replicas and marks as serving it does.
#[tactic(auto, using(crate::proofs::Coming::comes_to_stores))]
pub fn requests_come_to_stores()
    ensures { (k : Clock) (g : Staging) (t : Traffic) (d : Stores) (m o : ℕ) (at : Reading) (target : Target) (r : Request) →
        stores_of (request_comes (assembled k g t d) m o at target r) ≡ in_stores k.steps (serves target at.latest r) d }
{}

/// What is sent then is the reply that serving it gives.
#[tactic(auto, using(crate::proofs::Coming::comes_with_reply))]
pub fn requests_are_answered()
    ensures { (k : Clock) (g : Staging) (t : Traffic) (d : Stores) (m o : ℕ) (at : Reading) (target : Target) (r : Request) →
        (request_comes (assembled k g t d) m o at target r).net ≡ answers t.net m (reply_at d target at.latest r) }
{}
