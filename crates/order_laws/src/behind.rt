//! The laws of what is behind a stage or a message.

ghost use Rattle.std.specs.Prelude.{ℕ, ◌≡◌, ◌↔◌, List, [], ◌∷◌, ◌++◌, length, IsTrue};
ghost use Rattle.rss_model.specs.declared.history.Entry.{Entry};
ghost use Rattle.rss_model.specs.declared.history.Token.{Token};
ghost use Rattle.rss_model.specs.History.{BeginsAt, has_begun, has_ended};
ghost use Rattle.rss_model.specs.Stages.{stage_at};
ghost use Rattle.rss_model.specs.Causality.{BeforeByMessages};
ghost use Rattle.rss_model.specs.Behind.{BehindPlace, BehindStage, BehindToken};
ghost use Rattle.order_laws.specs.CallsBehind.{calls_behind, behind_after};

/// One pass over a history tells which calls are behind each stage and each message: those from
/// whose End a path leads there.
#[tactic(auto, using(crate::proofs::OnePass::stages_told, crate::proofs::OnePass::messages_told))]
pub fn behind_by_one_pass()
    ensures stages { (h : List Entry) (stage call : ℕ) →
        IsTrue ((calls_behind h (length h)).stage stage call) ↔ BehindStage h call stage }
    ensures messages { (h : List Entry) (token : Token) (call : ℕ) →
        IsTrue ((calls_behind h (length h)).message token call) ↔ BehindToken h call token }
{}

/// A path leads from the End of a call to the Begin of another exactly where the pass has the first
/// call behind the stage of the second just before that Begin.
#[tactic(auto, using(crate::proofs::OnePass::begins_told, crate::proofs::OnePass::message_order_told))]
pub fn messages_lead_to_what_is_behind()
    ensures at_begin { (h : List Entry) (a b i : ℕ) → BeginsAt h b i →
        IsTrue ((calls_behind h i).stage (stage_at h i) a) ↔ BehindPlace h a i }
    ensures message_order { (h : List Entry) (a b : ℕ) →
        BeforeByMessages h a b ↔
        ((i : ℕ) × BeginsAt h b i × IsTrue ((calls_behind h i).stage (stage_at h i) a)) }
{}

/// Where a history has no End of a call that has not begun, the pass over it goes on with each entry
/// that follows.
pub fn one_pass_goes_on()
    ensures { (h : List Entry) (next : Entry) →
        ((call : ℕ) → IsTrue (has_ended h call) → IsTrue (has_begun h call)) →
        calls_behind (h ++ next ∷ []) (length (h ++ next ∷ [])) ≡
        behind_after (h ++ next ∷ []) (calls_behind h (length h)) next }
{}
