//! Why a step text is refused.

use thiserror::Error;

/// Why a step text is refused.
#[derive(Clone, Copy, Debug, PartialEq, Eq, Error)]
pub enum StepTextError {
    /// The first line that is off the grammar, and in it the first byte that cannot stand, or the
    /// column behind the end of a line that the end of the text cuts off. Both are counted from 1.
    /// Where the reading's earliest exceeds its latest, it is the first byte of the latest.
    #[error("step line {number} goes off the grammar at column {column}")]
    BadStep { number: u32, column: u32 },
    /// Memory is wanting.
    #[error("out of memory")]
    OutOfMemory,
}
