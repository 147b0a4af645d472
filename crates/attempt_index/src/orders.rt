//! What stands in which order.

ghost use Rattle.std.specs.Prelude.{◌≡◌};
ghost use Rattle.attempt_index.specs.KeyIndex.{service_lt, key_lt};

use crate::index::KeyAttempt;
use crate::sorted::Ordered;
use rss_names::{Attempt, Key, ServiceId, is_attempt_before, is_same_key, is_same_service};
use rss_wire::{Holder, Skipped};

impl Ordered for Attempt {
    ghost use Rattle.rss_tables.specs.Attempts.{attempt_lt};
    ghost use Rattle.attempt_index.specs.Orders.{attempts-transitive};

    ghost before = { attempt_lt };

    ghost transitive = { attempts-transitive };

    fn is_before(&self, other: &Attempt) -> bool {
        is_attempt_before(*self, *other)
    }
}

impl Ordered for KeyAttempt {
    ghost use Rattle.attempt_index.specs.KeyIndex.{key_attempt_lt};
    ghost use Rattle.attempt_index.specs.Orders.{key_attempts-transitive};

    ghost before = { key_attempt_lt };

    ghost transitive = { key_attempts-transitive };

    fn is_before(&self, other: &KeyAttempt) -> bool {
        is_key_before(self.key, other.key)
            || (is_same_key(self.key, other.key) && is_attempt_before(self.attempt, other.attempt))
    }
}

impl Ordered for Holder {
    ghost use Rattle.attempt_index.specs.Orders.{holder_lt, holders-transitive};

    ghost before = { holder_lt };

    ghost transitive = { holders-transitive };

    fn is_before(&self, other: &Holder) -> bool {
        is_attempt_before(self.attempt, other.attempt)
    }
}

impl Ordered for Skipped {
    ghost use Rattle.attempt_index.specs.Orders.{skipped_lt, skipped-transitive};

    ghost before = { skipped_lt };

    ghost transitive = { skipped-transitive };

    fn is_before(&self, other: &Skipped) -> bool {
        is_attempt_before(self.attempt, other.attempt)
    }
}

// Whether a service stands before another: transaction services before register services.
fn is_service_before(a: ServiceId, b: ServiceId) -> bool
    ensures { result ≡ service_lt a b }
{
    match (a, b) {
        (ServiceId::Txn(m), ServiceId::Txn(n)) | (ServiceId::Reg(m), ServiceId::Reg(n)) => m < n,
        (ServiceId::Txn(_), ServiceId::Reg(_)) => true,
        (ServiceId::Reg(_), ServiceId::Txn(_)) => false,
    }
}

/// Whether a key stands before another: by service, and then by index.
pub fn is_key_before(a: Key, b: Key) -> bool
    ensures { result ≡ key_lt a b }
{
    is_service_before(a.service, b.service)
        || (is_same_service(a.service, b.service) && a.index < b.index)
}
