//! The table of all keys at a call's turn, as the list of the writes so far.

ghost use Rattle.std.specs.Prelude.{◌≡◌, ◌++◌, map, IfOk, OnOk};
ghost use Rattle.plain_model.specs.Written.{table_of, logged, values_written};
ghost use Rattle.rss_model.specs.Legal.{shown_by as shown_in};
ghost use Rattle.rss_model.specs.Operation.{written_by, values_of};

use crate::formulas::formula_value;
use rss_model::{Formula, Op, Shown};
use rss_names::{CallId, Key};
use std::alloc::{AllocError, Global};

/// What the table shows of the keys that an operation reads.
pub(crate) fn shown_by(alloc: Global, written: &[Shown], op: &Op) -> Result<Vec<Shown>, AllocError>
    ensures { IfOk result (λ shown. shown.items ≡ shown_in (table_of written.now) op.now) }
{
    match op {
        Op::Read(key) => shown_of_keys(alloc, written, &[*key]),
        Op::Write(_, _) => Ok(Vec::new(alloc)),
        Op::Snap(keys) => shown_of_keys(alloc, written, keys.as_slice()),
        Op::Txn(keys, _, _) => shown_of_keys(alloc, written, keys.as_slice()),
    }
}

/// Makes the writes of a call's operation, over what it was shown.
pub(crate) fn add_writes(
    written: &mut Vec<Shown>,
    call: CallId,
    op: &Op,
    shown: &[Shown],
) -> Result<(), AllocError>
    ensures { OnOk result (written.new.items ≡
        written.old.items ++ logged call (written_by op.now (values_of shown.now))) }
{
    match op {
        Op::Read(_) | Op::Snap(_) => Ok(()),
        Op::Write(key, value) => {
            written.push(Shown {
                key: *key,
                value: *value,
                writer: call.number(),
            })?;
            Ok(())
        }
        Op::Txn(_, _, writes) => add_formulas(written, call, writes.as_slice(), shown),
    }
}

// What the table shows of one key: its latest write, or else the opening value.
fn shown_of(written: &[Shown], key: Key) -> Shown
    ensures { result ≡ table_of written.now key }
{
    let mut shown = Shown {
        key,
        value: 0,
        writer: 0,
    };
    for write in written {
        if shown.key == write.key {
            shown.value = write.value;
            shown.writer = write.writer;
        }
    }
    shown
}

// What the table shows of some keys.
fn shown_of_keys(alloc: Global, written: &[Shown], keys: &[Key]) -> Result<Vec<Shown>, AllocError>
    ensures { IfOk result (λ shown. shown.items ≡ map (table_of written.now) keys.now) }
{
    let mut shown = Vec::new(alloc);
    for key in keys {
        shown.push(shown_of(written, *key))?;
    }
    Ok(shown)
}

// Makes the writes of a transaction.
fn add_formulas(
    written: &mut Vec<Shown>,
    call: CallId,
    writes: &[(Key, Formula)],
    shown: &[Shown],
) -> Result<(), AllocError>
    ensures { OnOk result (written.new.items ≡
        written.old.items ++ logged call (values_written writes.now (values_of shown.now))) }
{
    for write in writes {
        let value = formula_value(&write.1, shown);
        written.push(Shown {
            key: write.0,
            value,
            writer: call.number(),
        })?;
    }
    Ok(())
}
