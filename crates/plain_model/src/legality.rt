//! Whether an order of calls is legal.

ghost use Rattle.std.specs.Prelude.{◌≡◌, ◌≤◌, ◌↔◌, IsTrue, IfOk, OnOk, length};
ghost use Rattle.rss_names.specs.declared.service.Key.{Key};
ghost use Rattle.plain_model.specs.Written.{table_of};
ghost use Rattle.rss_model.specs.Legal.{Legal, MeetsTable, table_after, table_at, shown_by as shown_in};

use crate::calls::{is_mutation, op_of, reply_of};
use crate::formulas::guard_holds;
use crate::tables::{add_writes, shown_by};
use rss_model::{Candidate, Entry, History, Op, Shown};
use rss_names::CallId;
use std::alloc::{AllocError, Global};

/// Whether the calls, applied from the first to the last to a table of all keys, are each shown what
/// the table shows at their turn, or have a guard that is true there. False where one has not begun.
pub fn legal(alloc: Global, h: &History, c: &Candidate) -> Result<bool, AllocError>
    ensures { IfOk result (λ legal. IsTrue legal ↔ Legal h.now c.now) }
{
    is_legal(alloc, h.as_slice(), c.as_slice())
}

/// Whether an order of calls is legal.
pub(crate) fn is_legal(alloc: Global, h: &[Entry], c: &[CallId]) -> Result<bool, AllocError>
    ensures { IfOk result (λ legal. IsTrue legal ↔ Legal h.now c.now) }
{
    let mut written = Vec::new(alloc);
    for call in c {
        if !meets(alloc, h, &written, *call)? {
            return Ok(false);
        }
        apply(alloc, h, &mut written, *call)?;
    }
    Ok(true)
}

/// What an operation would be shown at a place of an order, counted from 0: what the calls before
/// that place have written.
pub fn shown_at(
    alloc: Global,
    h: &[Entry],
    order: &[CallId],
    place: usize,
    op: &Op,
) -> Result<Vec<Shown>, AllocError>
    requires { place ≤ length order.now }
    ensures { IfOk result (λ shown. shown.items ≡ shown_in (table_at h.now order.now place) op.now) }
{
    let mut written = Vec::new(alloc);
    for before in 0..place {
        apply(alloc, h, &mut written, order[before])?;
    }
    shown_by(alloc, &written, op)
}

// Whether a call meets the table that these writes have made.
fn meets(alloc: Global, h: &[Entry], written: &[Shown], call: CallId) -> Result<bool, AllocError>
    ensures { IfOk result (λ meets. IsTrue meets ↔ MeetsTable h.now (table_of written.now) call) }
{
    match op_of(h, call) {
        Some(op) => {
            let shown = shown_by(alloc, written, op)?;
            match reply_of(h, call) {
                Some(reply) => Ok(reply.as_slice() == shown.as_slice()),
                None => Ok(guard_holds(op, &shown)),
            }
        }
        None => Ok(false),
    }
}

// Makes a call's writes, if it is a mutation.
#[tactic(auto, using(crate::proofs::TableLemmas::writes_made))]
fn apply(
    alloc: Global,
    h: &[Entry],
    written: &mut Vec<Shown>,
    call: CallId,
) -> Result<(), AllocError>
    ensures { OnOk result ((key : Key) →
        table_of written.new.items key ≡ table_after h.now (table_of written.old.items) call key) }
{
    if is_mutation(h, call)
        && let Some(op) = op_of(h, call)
    {
        let shown = shown_by(alloc, written, op)?;
        add_writes(written, call, op, &shown)?;
    }
    Ok(())
}
