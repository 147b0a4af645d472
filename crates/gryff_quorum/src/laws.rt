//! Laws of what a round hears.

ghost use Rattle.std.specs.Prelude.{ℕ};
ghost use Rattle.rss_tables.specs.Round.{Round, hears};
ghost use Rattle.gryff_quorum.specs.Heard.{IsSmall, HearsSmall, HasSmallStamps};
ghost use Rattle.rss_wire.specs.declared.messages.RegReply.{RegReply};

/// Where all stamps heard are small, so is the greatest.
#[tactic(auto, using(crate::proofs::SmallStamps::greatest_heard_is_small))]
pub fn greatest_heard_is_small()
    ensures { (round : Round) → HearsSmall round → HasSmallStamps round }
{}

/// Where all stamps heard are small, and one more is, all heard then are.
#[tactic(auto, using(crate::proofs::SmallStamps::hearing_keeps_small))]
pub fn hearing_keeps_small()
    ensures { (round : Round) (from : ℕ) (cell : RegReply) →
        HearsSmall round → IsSmall cell → HearsSmall (hears round from cell) }
{}
