//! The laws of what a round hears.

ghost use Rattle.std.specs.Prelude.{ℕ, ◌≡◌, ◌<◌, Bool, List, [], length, get_or, IsTrue, IsFalse};
ghost use Rattle.rss_names.specs.declared.service.Key.{Key};
ghost use Rattle.carstamps.specs.declared.carstamp.Carstamp.{Carstamp};
ghost use Rattle.carstamps.specs.Stamp.{IsAtMost};
ghost use Rattle.rss_wire.specs.declared.messages.RegReply.{RegReply};
ghost use Rattle.rss_tables.specs.Round.{Round, is_reached, is_lost};
ghost use Rattle.quorum_laws.specs.Majority.{majority_passes, is_held};
ghost use Rattle.quorum_laws.specs.Heard.{IsHeardAt, HearsItsReplicas, stamp_held, HeardAtLeast, HeardOfMajority, HasReplicaLeft};

/// The greatest stamp heard is at least each stamp heard.
pub fn greatest_is_at_least_each_heard()
    ensures { (round : Round) (at : ℕ) (cell : RegReply) →
        IsHeardAt round at cell → HeardAtLeast round cell.stamp }
{}

/// What each replica heard in a round that is reached passes, a majority of the replicas passes. So
/// where each of them holds a stamp or a greater one, a majority holds it.
pub fn reached_rounds_tell_of_a_majority()
    ensures { (round : Round) (replicas : List (List RegReply)) (test : List RegReply → Bool) →
        IsTrue (is_reached round) → HearsItsReplicas round → length replicas ≡ round.replicas →
        ((at : ℕ) (cell : RegReply) → IsHeardAt round at cell → IsTrue (test (get_or replicas at []))) →
        IsTrue (majority_passes test replicas) }
{}

/// The greatest stamp heard in a round that is reached is at least what each of a majority of the
/// replicas held, if what each replica told in the round is at least what it held.
pub fn reached_rounds_hear_a_majority()
    ensures { (round : Round) (replicas : List (List RegReply)) (key : Key) →
        IsTrue (is_reached round) → HearsItsReplicas round → length replicas ≡ round.replicas →
        ((at : ℕ) (cell : RegReply) → IsHeardAt round at cell →
        IsAtMost (stamp_held key (get_or replicas at [])) cell.stamp) →
        HeardOfMajority round replicas key }
{}

/// The greatest stamp heard in a round that is reached is at least each stamp that a majority of the
/// replicas held, if what each replica told in the round is at least what it held.
pub fn reached_rounds_hear_what_a_majority_held()
    ensures { (round : Round) (replicas : List (List RegReply)) (key : Key) (stamp : Carstamp) →
        IsTrue (is_reached round) → HearsItsReplicas round → length replicas ≡ round.replicas →
        IsTrue (is_held (stamp_held key) replicas stamp) →
        ((at : ℕ) (cell : RegReply) → IsHeardAt round at cell →
        IsAtMost (stamp_held key (get_or replicas at [])) cell.stamp) →
        HeardAtLeast round stamp }
{}

/// In a round that is neither reached nor lost some replica is left: it is not cut off, and nothing
/// was heard of it yet.
pub fn open_rounds_have_a_replica_left()
    ensures { (round : Round) →
        0 < round.replicas → IsFalse (is_reached round) → IsFalse (is_lost round) →
        HasReplicaLeft round }
{}
