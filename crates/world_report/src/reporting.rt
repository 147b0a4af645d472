//! The report of a World, and its summary.

ghost use Rattle.std.specs.Prelude.{◌≡◌, ◌++◌, [], true, IfOk, OnOk};
ghost use Rattle.rss_machine.specs.Places.{places_of};
ghost use Rattle.rss_machine.specs.ReportText.{report_of, report_text, sum_line, sums_of as table_sums};

use crate::calls::put_calls;
use crate::services::put_services;
use crate::stages::put_stages;
use call_sums::{put_sums, sums_of};
use event_world::World;
use report_lines::put_ending;
use rss_witness::places;
use std::alloc::{AllocError, Global};

/// The report of a World: a line for each call in the order of their beginnings, a line for each
/// stage in file order, a line for each service of which fences were planned, and the line of the
/// ending.
#[tactic(auto, unfolding(rss_machine::specs::ReportText::report_text))]
pub fn report(alloc: Global, w: &World) -> Result<Vec<u8>, AllocError>
    ensures { IfOk result (λ text. text.items ≡ report_of w.now.config w.now.state) }
{
    let places = places(alloc, w)?;
    let mut out = Vec::new(alloc);
    put_calls(alloc, &mut out, w, &places)?;
    put_stages(alloc, &mut out, w)?;
    put_services(alloc, &mut out, w)?;
    put_ending(&mut out, w.ending())?;
    Ok(out)
}

// Appends the line of sums.
fn put_summary(alloc: Global, out: &mut Vec<u8>, w: &World) -> Result<(), AllocError>
    ensures { OnOk result (out.new.items ≡
        out.old.items ++ sum_line (table_sums w.now.state.history w.now.state.history) w.now.state.steps) }
{
    let sums = sums_of(alloc, w.history())?;
    put_sums(alloc, out, sums, w.steps() as usize)
}

/// The summary of a World: its report, with one line of sums in the place of the lines of calls.
#[tactic(auto, unfolding(rss_machine::specs::ReportText::report_text))]
pub fn summary(alloc: Global, w: &World) -> Result<Vec<u8>, AllocError>
    ensures { IfOk result (λ text. text.items ≡
        report_text w.now.config w.now.state (places_of w.now.state) [] true) }
{
    let mut out = Vec::new(alloc);
    put_summary(alloc, &mut out, w)?;
    put_stages(alloc, &mut out, w)?;
    put_services(alloc, &mut out, w)?;
    put_ending(&mut out, w.ending())?;
    Ok(out)
}
