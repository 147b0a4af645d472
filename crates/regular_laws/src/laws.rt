//! The law of places over all services. It holds no code: it is the contract of a function that does nothing.

ghost use Rattle.regular_laws.specs.Laws.{OrdersAreRegular, PlacesAreRegular};

/// In every run, whatever is lost, repeated or killed, and whichever services its calls are of: the places
/// of calls are a regular order for the history. It holds each call that has ended, once, and besides only
/// writes and committed transactions; in this order each call replied what the last one before it that
/// writes each key wrote; and the order keeps potential causality, and real time from each mutation that has
/// ended to every later mutation and to every later read that it conflicts with. So it is for the history and
/// the order of every list of steps.
pub fn places_are_regular()
    ensures states { PlacesAreRegular }
    ensures steps { OrdersAreRegular }
{}
