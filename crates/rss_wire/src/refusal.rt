//! Why a message can't be delivered, lost or repeated.

use thiserror::Error;

/// Why a message can't be delivered, lost or repeated. Nothing is changed then.
#[derive(Clone, Copy, Debug, PartialEq, Eq, Error)]
pub enum NetRefusal {
    /// No message of this number was ever sent.
    #[error("no such message")]
    NoSuchMessage,
    /// The message is lost.
    #[error("the message is lost")]
    Lost,
    /// A delivered message is delivered anew only by a repeat, and can't be lost.
    #[error("the message was delivered")]
    Delivered,
    /// Only a delivered message can be repeated.
    #[error("the message was not delivered")]
    NotDelivered,
    /// A message is repeated at most once.
    #[error("the message was repeated before")]
    AgainUsed,
}
