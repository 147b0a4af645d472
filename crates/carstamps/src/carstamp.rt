//! Stamps of register values, as in Gryff (Burke, Cheng and Lloyd, NSDI 2020).

ghost use Rattle.std.specs.Prelude.{◌≡◌, ◌<◌, ◌≤◌, ◌^◌, ◌↔◌, ◌⊎◌, IsTrue};
ghost use Rattle.carstamps.specs.Stamp.{IsBelow, IsAtMost, stamp_lt, next_stamp, greater_stamp};

/// The stamp of a register's value: a number, and the call that wrote the value. Stamps are ordered
/// by number and then by call, so two writes never share one.
#[derive(Clone, Copy, PartialEq, Eq, PartialOrd, Ord)]
pub struct Carstamp {
    pub number: u64,
    pub call: u32,
}

impl Carstamp {
    /// The stamp of the opening value, below every other.
    pub const ZERO: Carstamp = Carstamp { number: 0, call: 0 };

    /// The stamp that a write takes: its number is one above the greatest that the write found, and
    /// its call is the write's own. The condition leaves room for the number.
    pub fn next(greatest: Carstamp, call: u32) -> Carstamp
        requires room { greatest.number < 2 ^ 63 }
        ensures next { result ≡ next_stamp greatest call }
        ensures above { IsBelow greatest result }
    {
        Carstamp {
            number: greatest.number + 1,
            call,
        }
    }

    /// Whether this stamp is above the other one.
    pub fn is_above(self, other: Carstamp) -> bool
        ensures test { result ≡ stamp_lt other self }
        ensures above { IsTrue result ↔ IsBelow other self }
    {
        self > other
    }
}

/// The greater of two stamps.
pub fn greatest_of(a: Carstamp, b: Carstamp) -> Carstamp
    ensures greater { result ≡ greater_stamp a b }
    ensures one { (result ≡ a) ⊎ (result ≡ b) }
    ensures first { IsAtMost a result }
    ensures second { IsAtMost b result }
{
    if b.is_above(a) { b } else { a }
}
