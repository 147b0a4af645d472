//! The clock of a run.

ghost use Rattle.std.specs.Prelude.{◌≡◌, ◌+◌, ◌<◌, ◌≤◌, [], OnOk, IsTrue, vec_len, vec_capacity};
ghost use Rattle.truetime.specs.TrueMoment.{admits};
ghost use Rattle.world_machine.specs.Clock.{clock_in, ticked};

use std::alloc::{AllocError, Global};
use truetime::{Interval, Moments};

/// The number of steps made, the true moment, and the true moment of each step.
pub struct Clock {
    pub steps: u32,
    pub moment: Moments,
    pub moments: Vec<u64>,
}

// Written out, so that who lets a clock go sees one call and none of its parts.
impl Drop for Clock {
    fn drop(self) {
        let Clock {
            steps: _steps,
            moment: _moment,
            moments: _moments,
        } = self;
    }
}

impl Clock {
    /// The clock before the first step.
    pub fn new(alloc: Global) -> Clock
        ensures { clock_in result ≡ record { steps = 0; moment = 0; moments = [] } }
    {
        Clock {
            steps: 0,
            moment: Moments::new(),
            moments: Vec::new(alloc),
        }
    }

    /// Makes room for one step. An `Err` is want of memory.
    pub fn make_room(&mut self) -> Result<(), AllocError>
        ensures room { OnOk result (vec_len self.new.moments + 1 ≤ vec_capacity self.new.moments) }
        ensures same { clock_in self.new ≡ clock_in self.old }
    {
        self.moments.reserve(1)
    }

    /// A step is counted, and its reading taken.
    pub fn tick(&mut self, at: Interval)
        requires steps { self.old.steps < 200000 }
        requires admitted { IsTrue (admits self.old.moment at) }
        requires room { vec_len self.old.moments + 1 ≤ vec_capacity self.old.moments }
        ensures { clock_in self.new ≡ ticked (clock_in self.old) at }
    {
        self.steps += 1;
        let _ = self.moment.admit(at);
        self.moments.push(self.moment.greatest()).unwrap();
    }
}
