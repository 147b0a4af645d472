//! What a request for locks is answered.

use rss_names::Seq;
use rss_wire::Holder;

/// Those in the way of a request, by ascending attempt, with their coordinators.
pub type Holders = Seq<Holder>;

/// The answer to a request for locks.
#[derive(Drop)]
pub enum LockAnswer {
    /// The attempt holds its locks.
    Granted,
    /// These hold locks that are in the way, and are not wounded.
    Wait(Holders),
    /// The attempt was wounded, or has ended: it can hold no locks any more.
    WoundedSelf,
}
