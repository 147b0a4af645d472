//! The table of all keys: what was last written of each.

ghost use Rattle.std.specs.Prelude.{◌≡◌, ◌<◌, ◌+◌, ◌*◌, ℕ, [], length, map, set, IfOk, OnOk};
ghost use Rattle.plain_model.specs.Written.{one_over, shown_over, logged, values_written};
ghost use Rattle.rss_model.specs.Legal.{shown_by as shown_in};
ghost use Rattle.rss_model.specs.Operation.{values_of, written_by};
ghost use Rattle.rss_names.specs.declared.service.Key.{Key as KeyOf};
ghost use Rattle.call_tables.specs.Cells.{row_place, row_in, table_in, cell_in, cell_after};

use crate::cells::{Cell, OPENING, Row};
use plain_model::formula_value;
use rss_model::{Formula, Op, Shown};
use rss_names::{CallId, Key, ServiceId};
use std::alloc::{AllocError, Global};

/// The place of the row of a service.
fn place_of(service: ServiceId) -> usize
    ensures place { result ≡ row_place service }
    ensures small { result < 512 }
{
    match service {
        ServiceId::Txn(number) => 2 * number as usize,
        ServiceId::Reg(number) => 2 * number as usize + 1,
    }
}

// What rows hold at a place.
fn cell_at(rows: &[Row], place: usize, index: usize) -> Cell
    ensures { result ≡ cell_in (row_in rows.now place) index }
{
    if place < rows.len() {
        rows[place].cell(index)
    } else {
        OPENING
    }
}

/// What the table shows of a key.
fn shown_of(rows: &[Row], key: Key) -> Shown
    ensures { result ≡ table_in rows.now key }
{
    let cell = cell_at(rows, place_of(key.service), key.index as usize);
    Shown {
        key,
        value: cell.value,
        writer: cell.writer,
    }
}

// What the table shows of some keys.
fn shown_of_keys(alloc: Global, rows: &[Row], keys: &[Key]) -> Result<Vec<Shown>, AllocError>
    ensures { IfOk result (λ shown. shown.items ≡ map (table_in rows.now) keys.now) }
{
    let mut shown = Vec::new(alloc);
    for key in keys {
        shown.push(shown_of(rows, *key))?;
    }
    Ok(shown)
}

/// What the table shows of the keys that an operation reads.
pub(crate) fn shown_by(alloc: Global, rows: &[Row], op: &Op) -> Result<Vec<Shown>, AllocError>
    ensures { IfOk result (λ shown. shown.items ≡ shown_in (table_in rows.now) op.now) }
{
    match op {
        Op::Read(key) => shown_of_keys(alloc, rows, &[*key]),
        Op::Write(_, _) => Ok(Vec::new(alloc)),
        Op::Snap(keys) => shown_of_keys(alloc, rows, keys.as_slice()),
        Op::Txn(keys, _, _) => shown_of_keys(alloc, rows, keys.as_slice()),
    }
}

// Makes rows reach to a place.
#[tactic(auto, using(crate::proofs::Putting::pushing))]
fn reach(alloc: Global, rows: &mut Vec<Row>, place: usize) -> Result<(), AllocError>
    ensures same { OnOk result ((at : ℕ) → row_in rows.new.items at ≡ row_in rows.old.items at) }
    ensures reached { OnOk result (place < length rows.new.items) }
{
    while rows.len() <= place {
        rows.push(Row::new(alloc))?;
    }
    Ok(())
}

// Puts a cell at an index of the row at a place.
#[tactic(auto, using(crate::proofs::Putting::putting))]
fn put_in(rows: &mut Vec<Row>, place: usize, index: u16, cell: Cell) -> Result<(), AllocError>
    requires { place < length rows.old.items }
    ensures own { OnOk result (rows.new.items ≡ set rows.old.items place (row_in rows.new.items place)) }
    ensures put { OnOk result ((at : ℕ) → cell_in (row_in rows.new.items place) at ≡ cell_after (row_in rows.old.items place) index cell at) }
{
    rows[place].put(index, cell)?;
    Ok(())
}

// Writes a key.
#[tactic(auto, using(crate::proofs::Putting::writing))]
fn put(alloc: Global, rows: &mut Vec<Row>, write: Shown) -> Result<(), AllocError>
    ensures { OnOk result ((key : KeyOf) → table_in rows.new.items key ≡ one_over (table_in rows.old.items key) write) }
{
    let place = place_of(write.key.service);
    reach(alloc, rows, place)?;
    let cell = Cell {
        value: write.value,
        writer: write.writer,
    };
    put_in(rows, place, write.key.index, cell)?;
    Ok(())
}

// Makes the writes of a transaction.
#[tactic(auto, using(crate::proofs::Writing::formulas))]
fn put_formulas(
    alloc: Global,
    rows: &mut Vec<Row>,
    call: CallId,
    writes: &[(Key, Formula)],
    shown: &[Shown],
) -> Result<(), AllocError>
    ensures { OnOk result ((key : KeyOf) → table_in rows.new.items key ≡
        shown_over (table_in rows.old.items key) (logged call (values_written writes.now (values_of shown.now)))) }
{
    for write in writes {
        let value = formula_value(&write.1, shown);
        let written = Shown {
            key: write.0,
            value,
            writer: call.number(),
        };
        put(alloc, rows, written)?;
    }
    Ok(())
}

/// Makes the writes of a call's operation, over what it was shown. An `Err` is want of memory.
#[tactic(auto, using(crate::proofs::Writing::operations))]
pub(crate) fn put_writes(
    alloc: Global,
    rows: &mut Vec<Row>,
    call: CallId,
    op: &Op,
    shown: &[Shown],
) -> Result<(), AllocError>
    ensures { OnOk result ((key : KeyOf) → table_in rows.new.items key ≡
        shown_over (table_in rows.old.items key) (logged call (written_by op.now (values_of shown.now)))) }
{
    match op {
        Op::Read(_) => Ok(()),
        Op::Snap(_) => Ok(()),
        Op::Write(key, value) => {
            let write = Shown {
                key: *key,
                value: *value,
                writer: call.number(),
            };
            put(alloc, rows, write)?;
            Ok(())
        }
        Op::Txn(_, _, writes) => {
            put_formulas(alloc, rows, call, writes.as_slice(), shown)?;
            Ok(())
        }
    }
}
