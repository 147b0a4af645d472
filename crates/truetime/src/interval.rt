//! Readings of a clock, as in TrueTime (Corbett et al., OSDI 2012).

ghost use Rattle.std.specs.Prelude.{◌≡◌, ◌≤◌, ◌<◌, ◌^◌, SomeIff};

use std::marker::Model;

/// A reading: the true moment of the reading lies from `earliest` to `latest`, in microseconds.
/// `earliest` is at most `latest`, which is below 2^62.
#[derive(Clone, Copy, PartialEq, Eq)]
pub struct Interval {
    pub earliest: u64,
    pub latest: u64,
}

impl Model for Interval {
    ghost use Rattle.truetime.specs.Reading.{Reading, IsReading};

    ghost Value = { Reading };

    ghost view = { λ at. record { earliest = at.earliest; latest = at.latest } };

    ghost invariant = { λ at. IsReading (record { earliest = at.earliest; latest = at.latest }) };

    ghost inverse = { λ at. record { earliest = at.earliest; latest = at.latest } };
}

impl Interval {
    /// The reading from `earliest` to `latest`; none where `earliest` is above `latest`, or `latest`
    /// is 2^62 or more.
    pub fn new(earliest: u64, latest: u64) -> Option<Interval>
        ensures { SomeIff result ((earliest ≤ latest) × (latest < 2 ^ 62))
            (record { earliest = earliest; latest = latest }) }
    {
        if earliest > latest || latest >= 1 << 62 {
            return None;
        }
        Some(Interval { earliest, latest })
    }

    /// The first moment that the reading allows.
    pub fn earliest(self) -> u64
        ensures same { result ≡ self.earliest }
        ensures order { result ≤ self.latest }
        ensures bound { result < 2 ^ 62 }
    {
        self.earliest
    }

    /// The last moment that the reading allows.
    pub fn latest(self) -> u64
        ensures same { result ≡ self.latest }
        ensures order { self.earliest ≤ result }
        ensures bound { result < 2 ^ 62 }
    {
        self.latest
    }
}
