//! The line of sums.

ghost use Rattle.std.specs.Prelude.{◌≡◌, ◌++◌, OnOk};
ghost use Rattle.std.specs.Fmt.{decimal};
ghost use Rattle.rss_machine.specs.ReportText.{sum_line};
ghost use Rattle.call_sums.specs.Sums.{told};

use crate::counting::Sums;
use rss_names::put_number;
use std::alloc::{AllocError, Global};

// Appends a word and a number.
fn put_numbered(
    alloc: Global,
    out: &mut Vec<u8>,
    word: &[u8],
    number: usize,
) -> Result<(), AllocError>
    ensures { OnOk result (out.new.items ≡ out.old.items ++ (word.now ++ decimal number)) }
{
    out.extend_from_slice(word)?;
    put_number(alloc, out, number as u64)
}

/// Appends the line of these sums and of the number of steps: `sum reads R writes W snaps S txns T open O
/// steps X`.
pub fn put_sums(
    alloc: Global,
    out: &mut Vec<u8>,
    sums: Sums,
    steps: usize,
) -> Result<(), AllocError>
    ensures { OnOk result (out.new.items ≡ out.old.items ++ sum_line (told sums) steps) }
{
    put_numbered(alloc, out, b"sum reads ", sums.reads)?;
    put_numbered(alloc, out, b" writes ", sums.writes)?;
    put_numbered(alloc, out, b" snaps ", sums.snaps)?;
    put_numbered(alloc, out, b" txns ", sums.txns)?;
    put_numbered(alloc, out, b" open ", sums.not_ended)?;
    put_numbered(alloc, out, b" steps ", steps)?;
    out.extend_from_slice(b"\n")
}
