//! The lines of the report on a disk.

ghost use Rattle.std.specs.Prelude.{◌≡◌, ◌++◌, ◌∷◌, [], get_or, OnOk};
ghost use Rattle.std.specs.Fmt.{decimal};
ghost use Rattle.pipeline_lang.specs.Config.{register_name};
ghost use Rattle.disk_report.specs.Text.{last_line, register_line, register_lines, stamp_text};

use carstamps::Carstamp;
use pipeline_lang::Config;
use rss_names::put_number;
use rss_wire::RegReply;
use std::alloc::{AllocError, Global};

// Appends a word and a number.
fn put_numbered(
    alloc: Global,
    out: &mut Vec<u8>,
    word: &[u8],
    number: u64,
) -> Result<(), AllocError>
    ensures { OnOk result (out.new.items ≡ out.old.items ++ (word.now ++ decimal number)) }
{
    out.extend_from_slice(word)?;
    put_number(alloc, out, number)
}

// Appends the name of a register, by its index from 0; nothing where there is none.
fn put_name(out: &mut Vec<u8>, config: &Config, index: usize) -> Result<(), AllocError>
    ensures { OnOk result (out.new.items ≡ out.old.items ++ register_name config.now index) }
{
    if index >= config.registers.len() {
        return Ok(());
    }
    match config.registers.name(index as u16) {
        Some(name) => out.extend_from_slice(name.bytes()),
        None => Ok(()),
    }
}

// Appends a stamp.
#[tactic(auto, unfolding(crate::specs::Text::stamp_text))]
fn put_stamp(alloc: Global, out: &mut Vec<u8>, stamp: Carstamp) -> Result<(), AllocError>
    ensures { OnOk result (out.new.items ≡ out.old.items ++ stamp_text stamp) }
{
    put_numbered(alloc, out, b" at ", stamp.number)?;
    put_numbered(alloc, out, b".", u64::from(stamp.call))
}

// Appends the line of a register.
#[tactic(auto, unfolding(crate::specs::Text::register_line))]
fn put_register(
    alloc: Global,
    out: &mut Vec<u8>,
    config: &Config,
    index: usize,
    held: RegReply,
) -> Result<(), AllocError>
    ensures { OnOk result (out.new.items ≡ out.old.items ++ register_line (register_name config.now index) held) }
{
    out.extend_from_slice(b"register ")?;
    put_name(out, config, index)?;
    put_numbered(alloc, out, b" ", held.value)?;
    put_stamp(alloc, out, held.stamp)?;
    put_numbered(alloc, out, b" by ", u64::from(held.writer))?;
    out.extend_from_slice(b"\n")
}

/// Appends the lines of registers, of which the first has index 0.
pub fn put_registers(
    alloc: Global,
    out: &mut Vec<u8>,
    config: &Config,
    registers: &[RegReply],
) -> Result<(), AllocError>
    ensures { OnOk result (out.new.items ≡ out.old.items ++ register_lines config.now 0 registers.now) }
{
    for (index, held) in registers.iter().enumerate() {
        put_register(alloc, out, config, index, *held)?;
    }
    Ok(())
}

/// Appends the line of the replica: how many requests it handled, and how many stops it met.
#[tactic(auto, unfolding(crate::specs::Text::last_line))]
pub fn put_last(
    alloc: Global,
    out: &mut Vec<u8>,
    replica: u8,
    handled: usize,
    stops: u8,
) -> Result<(), AllocError>
    ensures { OnOk result (out.new.items ≡ out.old.items ++ last_line replica handled stops) }
{
    put_numbered(alloc, out, b"replica ", u64::from(replica))?;
    put_numbered(alloc, out, b" handled ", handled as u64)?;
    put_numbered(alloc, out, b" stops ", u64::from(stops))?;
    out.extend_from_slice(b"\n")
}
