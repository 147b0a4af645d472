//! The laws of an index.

ghost use Rattle.std.specs.Prelude.{◌≡◌, ℕ, true, List, [], ◌∷◌, ◌++◌, length, Some};
ghost use Rattle.rss_model.specs.declared.history.Entry.{Entry};
ghost use Rattle.rss_model.specs.History.{has_begun, has_ended, op_of, reply_of};
ghost use Rattle.rss_model.specs.Stages.{stage_of};
ghost use Rattle.history_index.specs.declared.index.HistoryIndex.{HistoryIndex};
ghost use Rattle.history_index.specs.Following.{may_follow};
ghost use Rattle.history_index.specs.Kept.{begin_place, end_place, Indexes, Notes};
ghost use Rattle.history_index.specs.There.{op_there, stage_there, reply_there};

/// The index of a history that notes an entry which may come next is that of the longer history.
#[tactic(auto, using(crate::proofs::Indexed::indexed_more))]
pub fn indexes_go_on()
    ensures { (h : List Entry) (e : Entry) (index new : HistoryIndex) →
        may_follow h e ≡ true → Indexes h index → Notes index new (length h) e →
        Indexes (h ++ e ∷ []) new }
{}

/// Where a call begins, its operation and its stage stand, and where it ends, its reply.
#[tactic(auto, using(crate::proofs::There::op_there_is, crate::proofs::There::stage_there_is, crate::proofs::There::reply_there_is))]
pub fn places_tell()
    ensures operation { (h : List Entry) (call : ℕ) → has_begun h call ≡ true →
        op_there h (begin_place h call) ≡ Some (op_of h call) }
    ensures stage { (h : List Entry) (call : ℕ) → has_begun h call ≡ true →
        stage_there h (begin_place h call) ≡ Some (stage_of h call) }
    ensures reply { (h : List Entry) (call : ℕ) → has_ended h call ≡ true →
        reply_there h (end_place h call) ≡ Some (reply_of h call) }
{}
