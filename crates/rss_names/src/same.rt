//! Tests on services, keys and attempts.

ghost use Rattle.std.specs.Prelude.{◌≡◌, ◌&&◌, ◌||◌, ◌==◌, nat_lt};
ghost use Rattle.rss_names.specs.Services.{same_service, same_key};

use crate::attempt::Attempt;
use crate::service::{Key, ServiceId};

/// Whether two services are the same.
pub fn is_same_service(a: ServiceId, b: ServiceId) -> bool
    ensures { result ≡ same_service a b }
{
    match (a, b) {
        (ServiceId::Txn(m), ServiceId::Txn(n)) | (ServiceId::Reg(m), ServiceId::Reg(n)) => m == n,
        _ => false,
    }
}

/// Whether two keys are the same.
pub fn is_same_key(a: Key, b: Key) -> bool
    ensures { result ≡ same_key a b }
{
    is_same_service(a.service, b.service) && a.index == b.index
}

/// Whether two attempts are the same.
pub fn is_same_attempt(a: Attempt, b: Attempt) -> bool
    ensures { result ≡ (a.call == b.call && a.k == b.k) }
{
    a.call == b.call && a.k == b.k
}

/// Whether an attempt stands before another in the order of attempts: by call, and then by number
/// within the call.
pub fn is_attempt_before(a: Attempt, b: Attempt) -> bool
    ensures { result ≡ (nat_lt a.call b.call || (a.call == b.call && nat_lt a.k b.k)) }
{
    a.call < b.call || (a.call == b.call && a.k < b.k)
}

/// Whether an attempt is younger than another: of a later call, or an earlier attempt of the same
/// call.
pub fn is_younger_attempt(a: Attempt, b: Attempt) -> bool
    ensures { result ≡ (nat_lt b.call a.call || (a.call == b.call && nat_lt a.k b.k)) }
{
    b.call < a.call || (a.call == b.call && a.k < b.k)
}
