//! What a registry refuses.
use rss_names::ServiceId;
use thiserror::Error;

/// Why a service is not registered.
#[derive(Clone, Copy, Debug, PartialEq, Eq, Error)]
pub enum RegisterRefusal {
    /// A service of its number is registered.
    #[error("a service of this number is registered")]
    AlreadyKnown,
    /// Memory is wanting.
    #[error("out of memory")]
    OutOfMemory,
}

/// No service of this number is registered.
#[derive(Clone, Copy, PartialEq, Eq)]
pub struct Unknown {
    /// The number.
    pub id: ServiceId,
}
