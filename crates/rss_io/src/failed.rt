//! The one error of a single call on the outside.
use thiserror::Error;

/// A call on the outside did not succeed. Its object's count of faults rose in that call.
#[derive(Clone, Copy, Debug, PartialEq, Eq, Error)]
#[error("the call failed")]
pub struct Failed;
