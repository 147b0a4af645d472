//! What an owner has under way, in short.

/// What an owner has under way, without its session.
#[derive(Clone, Copy)]
pub enum Way {
    Idle,
    Fixing,
    Register,
    Transaction,
    Snapshot,
    Settling,
}
