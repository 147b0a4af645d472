//! A walk along an order of calls.

ghost use Rattle.std.specs.Prelude.{◌≡◌, ◌<◌, ◌≤◌, ◌+◌, ◌&&◌, not, [], length, get_or, IfOk, OnOk};
ghost use Rattle.std.specs.Option.{option_copied};
ghost use Rattle.plain_model.specs.Found.{failed_by};
ghost use Rattle.plain_model.specs.Written.{shown_over, logged};
ghost use Rattle.rss_model.specs.Legal.{shown_by as shown_in, table_after, table_at};
ghost use Rattle.rss_model.specs.Operation.{may_write as writes_of, values_of, written_by};
ghost use Rattle.rss_names.specs.declared.service.Key.{Key};
ghost use Rattle.call_tables.specs.Along.{HoldsTable, IsWalk};
ghost use Rattle.call_tables.specs.Cells.{table_in};

use crate::cells::Row;
use crate::latest::{put_writes, shown_by};
use crate::tables::CallTables;
use plain_model::guard_holds;
use rss_model::{Op, Reply, Shown};
use rss_names::CallId;
use std::alloc::{AllocError, Global};

/// A place of an order of calls, counted from 0, and the table of all keys that the calls before it
/// have made. It goes on to later places call by call, and begins anew for an earlier one.
#[derive(Drop)]
pub struct Walk {
    place: usize,
    rows: Vec<Row>,
}

impl Walk {
    /// A walk that stands at the beginning of every order.
    pub fn new(alloc: Global) -> Walk
        ensures place { result.place ≡ 0 }
        ensures rows { result.rows.items ≡ [] }
    {
        Walk {
            place: 0,
            rows: Vec::new(alloc),
        }
    }

    /// What an operation would be shown at a place of the order: what the calls before that place
    /// have written. An `Err` is want of memory.
    #[tactic(auto, using(crate::proofs::Going::showing))]
    pub fn shown_at(
        &mut self,
        alloc: Global,
        calls: &CallTables<'_>,
        order: &[CallId],
        place: usize,
        op: &Op,
    ) -> Result<Vec<Shown>, AllocError>
        requires stands { IsWalk calls.now order.now self.old }
        requires within { place ≤ length order.now }
        ensures shown { IfOk result (λ shown. shown.items ≡ shown_in (table_at calls.now order.now place) op.now) }
        ensures stands { OnOk result (IsWalk calls.now order.now self.new) }
    {
        self.go_to(alloc, calls, order, place)?;
        let shown = shown_by(alloc, &self.rows, op)?;
        Ok(shown)
    }

    // Goes to a place of the order.
    #[tactic(auto, using(crate::proofs::Going::going_to))]
    fn go_to(
        &mut self,
        alloc: Global,
        calls: &CallTables<'_>,
        order: &[CallId],
        place: usize,
    ) -> Result<(), AllocError>
        requires stands { IsWalk calls.now order.now self.old }
        requires within { place ≤ length order.now }
        ensures stands { OnOk result (IsWalk calls.now order.now self.new) }
        ensures place { OnOk result (self.new.place ≡ place) }
    {
        if place < self.place {
            self.begin();
            return self.go_ahead(alloc, calls, order, place);
        }
        self.go_ahead(alloc, calls, order, place)
    }

    // Goes on to a place of the order that is not behind.
    #[tactic(auto, using(crate::proofs::Going::going_to))]
    fn go_ahead(
        &mut self,
        alloc: Global,
        calls: &CallTables<'_>,
        order: &[CallId],
        place: usize,
    ) -> Result<(), AllocError>
        requires stands { IsWalk calls.now order.now self.old }
        requires ahead { self.old.place ≤ place }
        requires within { place ≤ length order.now }
        ensures stands { OnOk result (IsWalk calls.now order.now self.new) }
        ensures place { OnOk result (self.new.place ≡ place) }
    {
        go_on(alloc, calls, order, &mut self.rows, self.place, place)?;
        self.place = place;
        Ok(())
    }

    // Goes back to the beginning.
    fn begin(&mut self)
        ensures place { self.new.place ≡ 0 }
        ensures rows { self.new.rows.items ≡ [] }
    {
        self.rows.clear();
        self.place = 0;
    }
}

// Makes the writes of the calls from one place of an order to another.
#[tactic(auto, using(crate::proofs::Going::going))]
fn go_on(
    alloc: Global,
    calls: &CallTables<'_>,
    order: &[CallId],
    rows: &mut Vec<Row>,
    from: usize,
    to: usize,
) -> Result<(), AllocError>
    requires ahead { from ≤ to }
    requires within { to ≤ length order.now }
    requires stands { HoldsTable calls.now order.now from rows.old.items }
    ensures { OnOk result (HoldsTable calls.now order.now to rows.new.items) }
{
    for at in from..to {
        apply(alloc, calls, rows, order[at])?;
    }
    Ok(())
}

// Makes a call's writes, if it is a mutation.
#[tactic(auto, using(crate::proofs::Going::applying))]
fn apply(
    alloc: Global,
    calls: &CallTables<'_>,
    rows: &mut Vec<Row>,
    call: CallId,
) -> Result<(), AllocError>
    ensures { OnOk result ((key : Key) →
        table_in rows.new.items key ≡ table_after calls.now (table_in rows.old.items) call key) }
{
    match calls.op_of(call) {
        Some(op) => {
            if mutates(op, calls.reply_of(call)) {
                make_writes(alloc, rows, call, op)?;
                Ok(())
            } else {
                Ok(())
            }
        }
        None => Ok(()),
    }
}

// Makes the writes of an operation over what the table shows.
#[tactic(auto, using(crate::proofs::Going::making))]
fn make_writes(alloc: Global, rows: &mut Vec<Row>, call: CallId, op: &Op) -> Result<(), AllocError>
    ensures { OnOk result ((key : Key) → table_in rows.new.items key ≡
        shown_over (table_in rows.old.items key) (logged call (written_by op.now (values_of (shown_in (table_in rows.old.items) op.now))))) }
{
    let shown = shown_by(alloc, rows, op)?;
    put_writes(alloc, rows, call, op, &shown)?;
    Ok(())
}

// Whether a call of this operation and reply is a mutation.
fn mutates(op: &Op, reply: Option<&Reply>) -> bool
    ensures { result ≡ (writes_of op.now && not (failed_by op.now (option_copied reply.entry))) }
{
    may_write(op) && !has_failed(op, reply)
}

// Whether an operation is one that writes.
fn may_write(op: &Op) -> bool
    ensures { result ≡ writes_of op.now }
{
    match op {
        Op::Write(_, _) | Op::Txn(_, _, _) => true,
        Op::Read(_) | Op::Snap(_) => false,
    }
}

// Whether an operation has ended with a guard that is false over what it was shown.
fn has_failed(op: &Op, reply: Option<&Reply>) -> bool
    ensures { result ≡ failed_by op.now (option_copied reply.entry) }
{
    match reply {
        Some(reply) => !guard_holds(op, reply.as_slice()),
        None => false,
    }
}
