//! A clock that steps.

ghost use Rattle.std.specs.Prelude.{◌≡◌, ◌≤◌, ◌<◌, ◌+◌, ◌^◌, IfSome, IfNone, Some, None};
ghost use Rattle.rss_machine.specs.Serial.{reading_of, ticked, passed};

use std::marker::Model;
use truetime::Interval;

/// The times of readings end below this limit.
const LIMIT: u64 = 1 << 62;

/// A clock that goes on by a tick at each reading, as long as the reading ends below 2^62. A reading
/// reaches half to both sides of the clock's time.
#[derive(Clone, Copy)]
pub struct Stepping {
    now: u64,
    tick: u64,
    half: u64,
}

impl Model for Stepping {
    ghost use Rattle.rss_machine.specs.Serial.{Stepping as Clock};
    ghost use Rattle.serial_run.specs.Clocks.{IsClock};

    ghost Value = { Clock };

    ghost view = { λ c. record { now = c.now; tick = c.tick; half = c.half } };

    ghost invariant = { λ c. IsClock (record { now = c.now; tick = c.tick; half = c.half }) };

    ghost inverse = { λ c. record { now = c.now; tick = c.tick; half = c.half } };
}

impl Stepping {
    /// The clock at a time, before its first reading.
    pub fn new(now: u64, tick: u64, half: u64) -> Stepping
        requires half { half ≤ now }
        requires now { now < 2 ^ 60 }
        requires positive { 0 < tick }
        requires tick { tick < 2 ^ 60 }
        ensures { result ≡ record { now = now; tick = tick; half = half } }
    {
        Stepping { now, tick, half }
    }

    /// The next reading, a tick later. The clock stays as it is where that would reach 2^62.
    pub fn reading(&mut self) -> Interval
        ensures clock { self.new ≡ ticked self.old }
        ensures reading { result ≡ reading_of self.new }
    {
        let next = self.now + self.tick;
        if next + self.half < LIMIT {
            self.now = next;
        }
        self.read()
    }

    /// The next reading that begins above a time, and at least a tick later. None, and no change,
    /// exactly where it would reach 2^62.
    pub fn past(&mut self, time: u64) -> Option<Interval>
        ensures clock { IfSome result (λ at. passed self.old time ≡ Some self.new) }
        ensures reading { IfSome result (λ at. at ≡ reading_of self.new) }
        ensures none { IfNone result (passed self.old time ≡ None) }
        ensures unchanged { IfNone result (self.new ≡ self.old) }
    {
        if time >= LIMIT {
            return None;
        }
        let next = (self.now + self.tick).max(time + 1 + self.half);
        if next + self.half >= LIMIT {
            return None;
        }
        self.now = next;
        Some(self.read())
    }

    // The reading at the clock's time.
    fn read(self) -> Interval
        ensures { result ≡ reading_of self }
    {
        Interval {
            earliest: self.now - self.half,
            latest: self.now + self.half,
        }
    }
}
