//! Who can be wounded by whom.

ghost use Rattle.std.specs.Prelude.{◌≡◌};
ghost use Rattle.rss_tables.specs.Attempts.{has_attempt as is_among};
ghost use Rattle.shard_locks.specs.Holders.{is_open};

use rss_names::{Attempt, is_same_attempt, is_younger_attempt};

/// Whether an attempt is among others.
pub fn has_attempt(attempts: &[Attempt], attempt: Attempt) -> bool
    ensures { result ≡ is_among attempts.now attempt }
{
    attempts
        .iter()
        .any(|other| is_same_attempt(attempt, *other))
}

/// Whether an attempt in the way of the one that asks is wounded: it is younger, and not prepared.
pub fn is_wounded(asking: Attempt, prepared: &[Attempt], other: Attempt) -> bool
    ensures { result ≡ is_open prepared.now asking other }
{
    is_younger_attempt(other, asking) && !has_attempt(prepared, other)
}
