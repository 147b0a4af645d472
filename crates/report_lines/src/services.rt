//! The line of a service.

ghost use Rattle.std.specs.Prelude.{◌≡◌, ◌++◌, OnOk};
ghost use Rattle.rss_machine.specs.ReportText.{service_line};

use crate::text::{put, put_number};
use std::alloc::{AllocError, Global};

/// Appends the line of a service, unless no fence was planned of it.
pub fn put_service(
    alloc: Global,
    out: &mut Vec<u8>,
    name: &[u8],
    fences: u32,
) -> Result<(), AllocError>
    ensures { OnOk result (out.new.items ≡ out.old.items ++ service_line name.now fences) }
{
    if fences == 0 {
        return Ok(());
    }
    put(out, b"service ")?;
    put(out, name)?;
    put(out, b" fences ")?;
    put_number(alloc, out, u64::from(fences))?;
    put(out, b"\n")
}
