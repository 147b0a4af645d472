//! A search by halves over pairs of a time and a call.

ghost use Rattle.std.specs.Prelude.{◌≡◌, ◌+◌, ◌-◌, ◌*◌, ◌^◌, ◌<◌, ◌≤◌, length};
ghost use Rattle.rss_names.specs.Ascending.{pair_le, pair_at, Ascend, Finds};

use crate::steps::Steps;
use std::sync::ledger::Ledger;

/// A list of pairs of a time and a call that can be looked at one at a time.
pub trait Times1 {
    ghost use Rattle.std.specs.Prelude.{ℕ, List};

    /// The pairs, in order.
    ghost pairs: { Self → List (ℕ × ℕ) };

    /// How many pairs there are.
    fn len(&self) -> usize
        ensures len { result ≡ length (pairs self.now) };

    /// The pair at a place. Takes one step.
    fn get<L: Ledger>(&self, i: usize, steps: &mut Steps<L>) -> (u64, u32)
        requires within { i < length (pairs self.now) }
        ensures pair { result ≡ pair_at (pairs self.now) i }
        ensures step { steps.new ≡ steps.old + 1 };
}

/// Whether a pair is at most another: by time, and then by call.
fn is_at_most(pair: (u64, u32), bound: (u64, u32)) -> bool
    ensures { result ≡ pair_le pair bound }
{
    pair.0 < bound.0 || (pair.0 == bound.0 && pair.1 <= bound.1)
}

/// The greatest place whose pair is at most the bound, and None exactly where there is none. It takes
/// no more steps than twice the length and one more has binary digits.
pub fn last_at_most<V: Times1, L: Ledger>(
    v: &V,
    bound: (u64, u32),
    steps: &mut Steps<L>,
) -> Option<usize>
    requires ascending { Ascend (V.pairs v.now) }
    ensures found { Finds (V.pairs v.now) bound result }
    ensures later { steps.old ≤ steps.new }
    ensures steps { 2 ^ (steps.new - steps.old) ≤ 2 * length (V.pairs v.now) + 1 }
{
    let mut low = 0;
    let mut high = v.len();
    while low < high {
        let middle = low + (high - low) / 2;
        if is_at_most(v.get(middle, steps), bound) {
            low = middle + 1;
        } else {
            high = middle;
        }
    }
    if low == 0 { None } else { Some(low - 1) }
}
