//! Laws of the model, each as a function without a body.

ghost use Rattle.std.specs.Prelude.{ℕ, List, [], ◌∷◌, Contains};
ghost use Rattle.rss_model.specs.declared.history.Entry.{Entry};
ghost use Rattle.rss_model.specs.Causality.{CausallyBefore};
ghost use Rattle.rss_model.specs.Legal.{Legal};
ghost use Rattle.rss_model.specs.Regular.{Regular};
ghost use Rattle.rss_model.specs.ScriptRun.{ScriptRun};
ghost use Rattle.rss_model.specs.Samples.{written_then_read};
ghost use Rattle.rss_model.specs.PipeSample.{two_stages, passed_on, put_skipped};

/// The empty order of the empty history is regular.
pub fn nothing_is_regular()
    ensures { Regular [] [] }
{}

/// A write and then a read that it was shown to are regular in that order, and not in the other.
pub fn read_follows_its_write()
    ensures follows { Regular written_then_read (1 ∷ 2 ∷ []) }
    ensures leads_not { ¬ Legal written_then_read (2 ∷ 1 ∷ []) }
{}

/// A stage that takes what another put, and writes it, runs its script; one that exits without its
/// put does not.
pub fn scripts_are_followed()
    ensures giver { ScriptRun two_stages passed_on 1 }
    ensures taker { ScriptRun two_stages passed_on 2 }
    ensures skipped { ¬ ScriptRun two_stages put_skipped 1 }
{}

/// Where some order is regular, no call in it is causally before itself.
pub fn causality_has_no_cycle()
    ensures { (h : List Entry) (c : List ℕ) (call : ℕ) → Regular h c → Contains c call →
        ¬ CausallyBefore h call call }
{}
