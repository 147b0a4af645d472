//! The attempts that can hold no locks any more, in the order in which they came.

ghost use Rattle.std.specs.Prelude.{◌≡◌, ◌+◌, ◌<◌, ◌≤◌, length};
ghost use Rattle.indexmap.specs.IndexSet.{spare};
ghost use Rattle.rss_tables.specs.Attempts.{has_attempt, with_attempt};
ghost use Rattle.rss_tables.specs.Locks.{with_tombs};

use indexmap::IndexSet;
use rss_names::Attempt;

/// Whether an attempt is among them.
pub fn is_buried(tombs: &IndexSet<Attempt>, attempt: Attempt) -> bool
    ensures { result ≡ has_attempt tombs.now.keys attempt }
{
    tombs.contains(&attempt)
}

/// An attempt joins them, once. There is room for it.
pub fn bury(tombs: &mut IndexSet<Attempt>, attempt: Attempt)
    requires room { 0 < spare tombs.old }
    ensures joined { tombs.new.keys ≡ with_attempt tombs.old.keys attempt }
    ensures room { spare tombs.old ≤ spare tombs.new + 1 }
{
    tombs.insert(attempt).unwrap();
}

/// Attempts join them, in order. There is room for them.
pub fn bury_all(tombs: &mut IndexSet<Attempt>, attempts: &[Attempt])
    requires room { length attempts.now ≤ spare tombs.old }
    ensures joined { tombs.new.keys ≡ with_tombs tombs.old.keys attempts.now }
{
    for attempt in attempts {
        bury(tombs, *attempt);
    }
}
