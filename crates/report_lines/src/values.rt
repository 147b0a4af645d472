//! What operations have read and written.

ghost use Rattle.std.specs.Prelude.{◌≡◌, ◌++◌, map, OnOk};
ghost use Rattle.plain_model.specs.Written.{values_written};
ghost use Rattle.rss_model.specs.Formula.{formula_value as value_of_formula};
ghost use Rattle.rss_model.specs.Operation.{values_of};
ghost use Rattle.rss_machine.specs.ReportText.{joined, shown_text, written_text, reads_text};
ghost use Rattle.report_lines.specs.Pieces.{more_reads, more_writes};

use crate::names::put_key;
use crate::text::{put, put_number};
use pipeline_lang::Config;
use plain_model::formula_value;
use rss_model::{Formula, Shown};
use rss_names::Key;
use std::alloc::{AllocError, Global};

/// Appends what was read, each with its key, the value and its writer.
pub fn put_reads(
    alloc: Global,
    out: &mut Vec<u8>,
    config: &Config,
    reply: &[Shown],
) -> Result<(), AllocError>
    ensures { OnOk result (out.new.items ≡ out.old.items ++ reads_text config.now reply.now) }
{
    match reply.split_first() {
        None => Ok(()),
        Some((first, rest)) => {
            put(out, b" ")?;
            put_shown(alloc, out, config, first)?;
            put_more_shown(alloc, out, config, rest)
        }
    }
}

/// Appends what these writes have written over what was read.
pub fn put_writes(
    alloc: Global,
    out: &mut Vec<u8>,
    config: &Config,
    writes: &[(Key, Formula)],
    reply: &[Shown],
) -> Result<(), AllocError>
    ensures { OnOk result (out.new.items ≡
        out.old.items ++ joined (map (written_text config.now) (values_written writes.now (values_of reply.now)))) }
{
    match writes.split_first() {
        None => Ok(()),
        Some((first, rest)) => {
            put_written(alloc, out, config, first, reply)?;
            put_more_written(alloc, out, config, rest, reply)
        }
    }
}

// Appends `KEY = V`.
fn put_value(
    alloc: Global,
    out: &mut Vec<u8>,
    config: &Config,
    key: Key,
    value: u64,
) -> Result<(), AllocError>
    ensures { OnOk result (out.new.items ≡ out.old.items ++ written_text config.now (key, value)) }
{
    put_key(out, config, key)?;
    put(out, b" = ")?;
    put_number(alloc, out, value)
}

// Appends `KEY = V by W`.
fn put_shown(
    alloc: Global,
    out: &mut Vec<u8>,
    config: &Config,
    shown: &Shown,
) -> Result<(), AllocError>
    ensures { OnOk result (out.new.items ≡ out.old.items ++ shown_text config.now shown.now) }
{
    put_value(alloc, out, config, shown.key, shown.value)?;
    put(out, b" by ")?;
    put_number(alloc, out, u64::from(shown.writer))
}

// Appends what more was read.
fn put_more_shown(
    alloc: Global,
    out: &mut Vec<u8>,
    config: &Config,
    rest: &[Shown],
) -> Result<(), AllocError>
    ensures { OnOk result (out.new.items ≡ out.old.items ++ more_reads config.now rest.now) }
{
    for shown in rest {
        put(out, b", ")?;
        put_shown(alloc, out, config, shown)?;
    }
    Ok(())
}

// Appends what one write has written over what was read.
fn put_written(
    alloc: Global,
    out: &mut Vec<u8>,
    config: &Config,
    write: &(Key, Formula),
    reply: &[Shown],
) -> Result<(), AllocError>
    ensures { OnOk result (out.new.items ≡
        out.old.items ++ written_text config.now (write.now.0, value_of_formula write.now.1 (values_of reply.now))) }
{
    let value = formula_value(&write.1, reply);
    put_value(alloc, out, config, write.0, value)
}

// Appends what more was written.
fn put_more_written(
    alloc: Global,
    out: &mut Vec<u8>,
    config: &Config,
    rest: &[(Key, Formula)],
    reply: &[Shown],
) -> Result<(), AllocError>
    ensures { OnOk result (out.new.items ≡
        out.old.items ++ more_writes config.now (values_written rest.now (values_of reply.now))) }
{
    for write in rest {
        put(out, b", ")?;
        put_written(alloc, out, config, write, reply)?;
    }
    Ok(())
}
