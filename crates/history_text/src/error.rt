//! Why the text of a history is refused.

use thiserror::Error;

/// Why the text of a history is refused.
#[derive(Clone, Copy, Debug, PartialEq, Eq, Error)]
pub enum HistoryError {
    /// The first bad line, counted from 1.
    #[error("line {line} of the history is bad")]
    BadHistory { line: u32 },
    /// Memory is wanting.
    #[error("out of memory")]
    OutOfMemory,
}
