//! Why a script's text is refused.

use thiserror::Error;

/// Why a script's text is refused.
#[derive(Clone, Copy, Debug, PartialEq, Eq, Error)]
pub enum ParseError {
    /// The first token that cannot stand: the number of its statement, and its column in bytes;
    /// or the column behind the end of a line that the text cuts off. Both are counted from 1. A
    /// block that is still open at the end of the script is reported behind the last statement.
    #[error("statement {statement} of the script goes off the grammar at column {column}")]
    Syntax { statement: u64, column: u64 },
    /// Memory is wanting.
    #[error("out of memory")]
    OutOfMemory,
}
