//! What is asked of a run.

use command_words::Form;
use rss_names::ReplicaId;

/// What is asked of a run.
#[derive(Clone, Copy, PartialEq, Eq)]
pub enum Asked {
    /// Its report, in a form.
    Report(Form),
    /// What this replica of `reg` then holds on a disk that stops at the call of this number, and at none where
    /// it is 0.
    Disk(ReplicaId, u32),
}
