//! The rising true moment over a list of readings.

ghost use Rattle.std.specs.Prelude.{◌≡◌, ◌≤◌, ◌<◌, ◌^◌, max, OnOk, IfErr, OnErr, IsTrue};
ghost use Rattle.truetime.specs.TrueMoment.{admits, moment_after};

use crate::interval::Interval;
use std::marker::Model;
use thiserror::Error;

/// The greatest `earliest` of the readings admitted so far: the true moment, in microseconds below
/// 2^62.
#[derive(Clone, Copy)]
pub struct Moments {
    greatest: u64,
}

/// A reading whose `latest` lies below an `earliest` that was admitted before it: no true moment
/// lies in both.
#[derive(Clone, Copy, Debug, PartialEq, Eq, Error)]
#[error("a reading that ends at {latest} follows one that begins at {greatest_earliest}")]
pub struct Contradiction {
    pub greatest_earliest: u64,
    pub latest: u64,
}

impl Model for Moments {
    ghost use Rattle.std.specs.Prelude.{ℕ, ◌<◌, ◌^◌};

    ghost Value = { ℕ };

    ghost view = { λ m. m.greatest };

    ghost invariant = { λ m. m.greatest < 2 ^ 62 };

    ghost inverse = { λ n. record { greatest = n } };
}

impl Moments {
    /// The true moment before the first reading: 0.
    pub fn new() -> Moments
        ensures { result ≡ 0 }
    {
        Moments { greatest: 0 }
    }

    /// The true moment: the greatest `earliest` admitted so far, and 0 before the first.
    pub fn greatest(&self) -> u64
        ensures same { result ≡ self.now }
        ensures bound { result < 2 ^ 62 }
    {
        self.greatest
    }

    /// Admits one more reading, and refuses it exactly where it ends before the true moment.
    pub fn admit(&mut self, at: Interval) -> Result<(), Contradiction>
        ensures admitted { OnOk result (self.new ≡ moment_after self.old at) }
        ensures allowed { OnOk result (IsTrue (admits self.old at)) }
        ensures refused { OnErr result (at.latest < self.old) }
        ensures cause { IfErr result (λ e.
            (e.greatest_earliest ≡ self.old) × (e.latest ≡ at.latest)) }
        ensures unchanged { OnErr result (self.new ≡ self.old) }
    {
        if at.latest < self.greatest {
            return Err(Contradiction {
                greatest_earliest: self.greatest,
                latest: at.latest,
            });
        }
        self.greatest = self.greatest.max(at.earliest);
        Ok(())
    }
}
