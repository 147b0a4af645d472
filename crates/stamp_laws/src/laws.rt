//! The law of stamps. It holds no code: it is the contract of a function that does nothing.

ghost use Rattle.stamp_laws.specs.Laws.{StampsAreBounded};

/// In every run no stamp has a number above that of the steps made: those that replicas are asked to
/// store and reply, that rounds have heard or store, that replicas hold, and that any context depends
/// on, wherever it lies.
pub fn stamps_are_bounded()
    ensures { StampsAreBounded }
{}
