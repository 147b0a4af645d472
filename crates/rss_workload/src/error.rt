//! Why no file is generated.

ghost use Rattle.std.specs.Prelude.{◌≡◌};

use std::alloc::AllocError;
use thiserror::Error;

/// Why no file is generated.
#[derive(Clone, Copy, Debug, PartialEq, Eq, Error)]
pub enum GenError {
    /// The number is 0, or above the most turns of a stage.
    #[error("the number is not from 1 to 1000")]
    OverLimit,
    /// Memory is wanting.
    #[error("out of memory")]
    OutOfMemory,
}

impl From<AllocError> for GenError {
    ghost use Rattle.rss_workload.specs.declared.error.GenError.TheVariants.{OutOfMemory};

    ghost from_gives = { λ _ e. e ≡ OutOfMemory };

    fn from(_refused: AllocError) -> GenError {
        GenError::OutOfMemory
    }
}
