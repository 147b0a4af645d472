//! What can be wrong with a script.

use thiserror::Error;

/// What is wrong with a statement, in the order in which a statement is tested.
#[derive(Clone, Copy, Debug, PartialEq, Eq)]
pub enum ScriptFaultKind {
    /// A number or a length passes its limit.
    OverLimit,
    /// A name is none of the file.
    UnknownName,
    /// The keys of one call belong to two services.
    ServiceShape,
    /// A variable or a key stands twice in one list.
    DoubleName,
    /// A stage may not be spawned or waited for here.
    SpawnShape,
    /// A pipe may not be used or closed so here.
    PipeShape,
}

/// What is wrong with one statement, and the token that shows it. Tokens are counted from 0 at the
/// statement's first word.
#[derive(Clone, Copy)]
pub struct Refusal {
    pub kind: ScriptFaultKind,
    pub token: u64,
}

/// The first fault of a script: what is wrong, the number of the statement, from 1, and the token
/// that shows it, counted from 0 at the statement's first word.
#[derive(Clone, Copy, Debug, PartialEq, Eq)]
pub struct ScriptFault {
    pub kind: ScriptFaultKind,
    pub statement: u64,
    pub token: u64,
}

/// Why a script was not bound.
#[derive(Clone, Copy, Debug, PartialEq, Eq, Error)]
pub enum BindError {
    /// The script has a fault.
    #[error("the script has a fault")]
    Fault(ScriptFault),
    /// Memory was wanting.
    #[error("out of memory")]
    OutOfMemory,
}
