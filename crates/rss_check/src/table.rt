//! A table of all keys at a call's turn.

ghost use Rattle.std.specs.Prelude.{◌≡◌, map, cond, IfOk, OnOk};
ghost use Rattle.rss_names.specs.declared.service.Key.{Key};
ghost use Rattle.rss_names.specs.Services.{same_key};
ghost use Rattle.rss_model.specs.Legal.{shown_by as shown_in, shown_after};
ghost use Rattle.rss_model.specs.Operation.{written_by, values_of};
ghost use Rattle.plain_model.specs.Written.{values_written};
ghost use Rattle.rss_check.specs.Table.{number_of_key, table_in};

use indexmap::IndexMap;
use plain_model::formula_value;
use rss_model::{Formula, Op, Shown};
use rss_names::{CallId, Key, ServiceId};
use std::alloc::{AllocError, Global};

/// A key by the kind and the number of its service, and its index.
#[derive(Clone, Copy, PartialEq, Eq, Hash)]
pub struct KeyNumber {
    pub kind: u8,
    pub service: u8,
    pub index: u16,
}

/// What was written to a key last, and by which call.
#[derive(Clone, Copy)]
pub struct Written {
    pub value: u64,
    pub writer: u32,
}

/// A table of all keys: those that are not in it show their opening value.
pub type KeyTable = IndexMap<KeyNumber, Written>;

/// A key by its numbers.
pub fn key_number(key: Key) -> KeyNumber
    ensures { result ≡ number_of_key key }
{
    match key.service {
        ServiceId::Txn(service) => KeyNumber {
            kind: 0,
            service,
            index: key.index,
        },
        ServiceId::Reg(service) => KeyNumber {
            kind: 1,
            service,
            index: key.index,
        },
    }
}

/// What the table shows of one key.
fn shown_of(table: &KeyTable, key: Key) -> Shown
    ensures { result ≡ table_in table.now key }
{
    match table.get(&key_number(key)) {
        Some(written) => Shown {
            key,
            value: written.value,
            writer: written.writer,
        },
        None => Shown {
            key,
            value: 0,
            writer: 0,
        },
    }
}

/// What the table shows of some keys.
fn shown_of_keys(alloc: Global, table: &KeyTable, keys: &[Key]) -> Result<Vec<Shown>, AllocError>
    ensures { IfOk result (λ shown. shown.items ≡ map (table_in table.now) keys.now) }
{
    let mut shown = Vec::new(alloc);
    for key in keys {
        shown.push(shown_of(table, *key))?;
    }
    Ok(shown)
}

/// What the table shows of the keys that an operation reads.
pub fn shown_by(alloc: Global, table: &KeyTable, op: &Op) -> Result<Vec<Shown>, AllocError>
    ensures { IfOk result (λ shown. shown.items ≡ shown_in (table_in table.now) op.now) }
{
    match op {
        Op::Read(key) => shown_of_keys(alloc, table, &[*key]),
        Op::Write(_, _) => Ok(Vec::new(alloc)),
        Op::Snap(keys) => shown_of_keys(alloc, table, keys.as_slice()),
        Op::Txn(keys, _, _) => shown_of_keys(alloc, table, keys.as_slice()),
    }
}

/// Writes a value to a key.
fn put_write(table: &mut KeyTable, call: CallId, key: Key, value: u64) -> Result<(), AllocError>
    ensures { OnOk result ((other : Key) → table_in table.new other ≡
        cond (same_key other key) (record { key = other; value = value; writer = call }) (table_in table.old other)) }
{
    let written = Written {
        value,
        writer: call.number(),
    };
    match table.insert(key_number(key), written) {
        Ok(_) => Ok(()),
        Err(_) => Err(AllocError),
    }
}

/// Makes the writes of a transaction, over what it was shown.
#[tactic(auto, using(crate::proofs::Tables::key_shown))]
fn put_formulas(
    table: &mut KeyTable,
    call: CallId,
    writes: &[(Key, Formula)],
    shown: &[Shown],
) -> Result<(), AllocError>
    ensures { OnOk result ((key : Key) → table_in table.new key ≡
        shown_after (table_in table.old key) call (values_written writes.now (values_of shown.now))) }
{
    for write in writes {
        let value = formula_value(&write.1, shown);
        put_write(table, call, write.0, value)?;
    }
    Ok(())
}

/// Makes the writes of a call's operation, over what it was shown.
pub fn put_writes(
    table: &mut KeyTable,
    call: CallId,
    op: &Op,
    shown: &[Shown],
) -> Result<(), AllocError>
    ensures { OnOk result ((key : Key) → table_in table.new key ≡
        shown_after (table_in table.old key) call (written_by op.now (values_of shown.now))) }
{
    match op {
        Op::Read(_) => Ok(()),
        Op::Snap(_) => Ok(()),
        Op::Write(key, value) => put_write(table, call, *key, *value),
        Op::Txn(_, _, writes) => put_formulas(table, call, writes.as_slice(), shown),
    }
}
