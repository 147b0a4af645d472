//! Whether an order is legal, and which call is the first that it is not for.

ghost use Rattle.std.specs.Prelude.{◌≡◌, ◌↔◌, IsTrue, IfOk, IfSome, IfNone, OnOk};
ghost use Rattle.rss_names.specs.declared.service.Key.{Key};
ghost use Rattle.rss_model.specs.Legal.{Legal, MeetsTable, table_after};
ghost use Rattle.history_index.specs.Kept.{Indexes};
ghost use Rattle.rss_check.specs.Table.{table_in};
ghost use Rattle.rss_check.specs.Verdicts.{IsFirstUnmet};

use crate::calls::{is_mutation, op_of, reply_of};
use crate::table::{KeyTable, put_writes, shown_by};
use history_index::HistoryIndex;
use indexmap::IndexMap;
use plain_model::guard_holds;
use rss_model::Entry;
use rss_names::CallId;
use std::alloc::{AllocError, Global};

/// Whether a call meets the table.
fn meets(
    alloc: Global,
    h: &[Entry],
    index: &HistoryIndex,
    table: &KeyTable,
    call: CallId,
) -> Result<bool, AllocError>
    requires { Indexes h.now index.now }
    ensures { IfOk result (λ meets. IsTrue meets ↔ MeetsTable h.now (table_in table.now) call) }
{
    match op_of(h, index, call) {
        Some(op) => {
            let shown = shown_by(alloc, table, op)?;
            match reply_of(h, index, call) {
                Some(reply) => Ok(reply.as_slice() == shown.as_slice()),
                None => Ok(guard_holds(op, &shown)),
            }
        }
        None => Ok(false),
    }
}

/// Makes a call's writes, if it is a mutation.
fn apply(
    alloc: Global,
    h: &[Entry],
    index: &HistoryIndex,
    table: &mut KeyTable,
    call: CallId,
) -> Result<(), AllocError>
    requires { Indexes h.now index.now }
    ensures { OnOk result ((key : Key) →
        table_in table.new key ≡ table_after h.now (table_in table.old) call key) }
{
    if is_mutation(h, index, call)
        && let Some(op) = op_of(h, index, call)
    {
        let shown = shown_by(alloc, table, op)?;
        put_writes(table, call, op, &shown)?;
    }
    Ok(())
}

/// The first call of an order that does not meet the table at its turn. None where the order is
/// legal.
#[tactic(auto, using(crate::proofs::Tables::first_unmet, crate::proofs::Tables::all_met, crate::proofs::Tables::met_one_more, crate::proofs::Tables::table_more))]
pub fn first_unmet(
    alloc: Global,
    h: &[Entry],
    index: &HistoryIndex,
    c: &[CallId],
) -> Result<Option<CallId>, AllocError>
    requires { Indexes h.now index.now }
    ensures first { IfOk result (λ r. IfSome r (λ call. IsFirstUnmet h.now c.now call)) }
    ensures legal { IfOk result (λ r. IfNone r (Legal h.now c.now)) }
{
    let mut table: KeyTable = IndexMap::new(alloc);
    for call in c {
        if !meets(alloc, h, index, &table, *call)? {
            return Ok(Some(*call));
        }
        apply(alloc, h, index, &mut table, *call)?;
    }
    Ok(None)
}
