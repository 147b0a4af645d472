//! Code: the step of a time, found by halves.
#![tactic(auto)]

ghost use Rattle.std.specs.Prelude.{◌≡◌, ◌+◌, ◌<◌, ◌^◌, length};
ghost use Rattle.std.specs.List.Sorted.{IsNonDecreasing};
ghost use Rattle.rss_machine.specs.Times.{first_above};

/// The step of a time: the first, counted from 1, whose true moment is above it, and one more than the
/// number of steps where there is none. The true moments of the steps never fall.
#[tactic(auto, using(crate::proofs::Above::first_from))]
pub fn step_of_time(moments: &[u64], time: u64) -> u32
    requires rising { IsNonDecreasing moments.now }
    requires few { length moments.now + 1 < 2 ^ 32 }
    ensures { result ≡ first_above 1 time moments.now }
{
    moments.partition_point(|moment| *moment <= time) as u32 + 1
}
