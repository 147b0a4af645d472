//! What the entry at a place says of the call that it begins or ends.

ghost use Rattle.std.specs.Prelude.{◌≡◌};
ghost use Rattle.std.specs.Option.{option_copied};
ghost use Rattle.history_index.specs.There.{op_there, stage_there, reply_there};

use rss_model::{Entry, Op, Reply};
use rss_names::StageId;

/// The operation that the entry at a place begins, if it begins a call.
pub fn op_at(h: &[Entry], place: usize) -> Option<&Op>
    ensures { option_copied result ≡ op_there h.now place }
{
    match h.get(place) {
        Some(Entry::Begin(_, _, op)) => Some(op),
        _ => None,
    }
}

/// The stage of the call that the entry at a place begins, if it begins one.
pub fn stage_at(h: &[Entry], place: usize) -> Option<StageId>
    ensures { result ≡ stage_there h.now place }
{
    match h.get(place) {
        Some(Entry::Begin(_, stage, _)) => Some(*stage),
        _ => None,
    }
}

/// The reply with which the entry at a place ends a call, if it ends one.
pub fn reply_at(h: &[Entry], place: usize) -> Option<&Reply>
    ensures { option_copied result ≡ reply_there h.now place }
{
    match h.get(place) {
        Some(Entry::End(_, reply)) => Some(reply),
        _ => None,
    }
}
