//! What the fence of a service has to do.

/// The work that a fence of one service comes to.
#[derive(Clone, Copy, PartialEq, Eq)]
pub enum FenceWork {
    /// Nothing is owed.
    Nothing,
    /// Waits until the true moment has passed this time.
    Past(u64),
    /// Stores the dependencies on the service's registers at a majority of its replicas.
    Fix,
}
