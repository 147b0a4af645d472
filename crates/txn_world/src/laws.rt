//! The words over the shards alone say what the machine's say.

ghost use Rattle.std.specs.Prelude.{◌≡◌, ℕ};
ghost use Rattle.rss_wire.specs.declared.messages.Request.{Request};
ghost use Rattle.rss_machine.specs.Moves.{serves_shard};
ghost use Rattle.rss_machine.specs.State.{State, shard_at};
ghost use Rattle.txn_world.specs.Commits.{FindsCommit};
ghost use Rattle.txn_world.specs.Shards.{shard_in, served_by};

/// A shard of the machine's state is that of its number among the shards.
pub fn reads_as_the_machine()
    ensures { (s : State) (shard : ℕ) → shard_at s shard ≡ shard_in s.shards shard }
{}

/// A request that a shard serves changes the shards as the machine's move does.
pub fn serves_as_the_machine()
    ensures { (s : State) (message shard latest : ℕ) (r : Request) → (serves_shard s message shard latest r).shards ≡ served_by s.shards shard latest r }
{}

/// Where each attempt is decided once, and no other attempt of a call is committed, the decision of an
/// attempt tells the commit time that the machine finds among all decisions of the call.
#[tactic(auto, using(crate::proofs::Commits::finds_commit))]
pub fn finds_the_commit()
    ensures { FindsCommit }
{}
