//! The lines of the calls of a history.

ghost use Rattle.std.specs.Prelude.{◌≡◌, ◌≤◌, ◌∷◌, ◌++◌, [], ℕ, OnOk, IfOk, IfSome, length};
ghost use Rattle.rss_machine.specs.Places.{places_of, placed_calls};
ghost use Rattle.rss_machine.specs.ReportText.{place_in, known_reply, call_line, call_lines};
ghost use Rattle.call_tables.specs.Along.{IsWalk};
ghost use Rattle.call_tables.specs.Tables.{held};

use call_tables::{CallTables, Walk, held_at, places_by_call};
use event_world::World;
use pipeline_lang::Config;
use report_lines::{Begun, put_call};
use rss_machine::Placed;
use rss_model::Entry;
use rss_names::CallId;
use std::alloc::{AllocError, Global};

// The calls of places, in order.
fn calls_of(alloc: Global, places: &[Placed]) -> Result<Vec<CallId>, AllocError>
    ensures { IfOk result (λ calls. calls.items ≡ placed_calls places.now) }
{
    places.iter().map(|placed| placed.call).collect(alloc)
}

// Appends the line of a call, by its reply, or by what it would be shown at its place.
#[tactic(auto, using(crate::proofs::Lines::replies))]
fn put_begun(
    alloc: Global,
    out: &mut Vec<u8>,
    config: &Config,
    calls: &CallTables<'_>,
    order: &[CallId],
    walk: &mut Walk,
    begun: &Begun,
) -> Result<(), AllocError>
    requires place { IfSome begun.now.place (λ place. (1 ≤ place) × (place ≤ length order.now)) }
    requires walk { IsWalk calls.now order.now walk.old }
    ensures line { OnOk result (out.new.items ≡ out.old.items ++
        call_line config.now begun.now.call begun.now.stage begun.now.op.now
        (known_reply calls.now order.now begun.now.call begun.now.op.now begun.now.place) begun.now.fate begun.now.place) }
    ensures walk { OnOk result (IsWalk calls.now order.now walk.new) }
{
    if let Some(reply) = calls.reply_of(begun.call) {
        put_call(alloc, out, config, begun, Some(reply.as_slice()))?;
        return Ok(());
    }
    match begun.place {
        Some(place) => {
            let shown = walk.shown_at(alloc, calls, order, place - 1, begun.op)?;
            put_call(alloc, out, config, begun, Some(shown.as_slice()))?;
            Ok(())
        }
        None => {
            put_call(alloc, out, config, begun, None)?;
            Ok(())
        }
    }
}

// Appends the line of a call that an entry begins, if it begins one.
#[tactic(auto, using(crate::proofs::Lines::entries))]
fn put_entry(
    alloc: Global,
    out: &mut Vec<u8>,
    w: &World,
    calls: &CallTables<'_>,
    order: &[CallId],
    placed: &[Option<usize>],
    walk: &mut Walk,
    entry: &Entry,
) -> Result<(), AllocError>
    requires history { calls.now ≡ w.now.state.history }
    requires order { order.now ≡ placed_calls (places_of w.now.state) }
    requires placed { (call : ℕ) → held placed.now call ≡ place_in call (places_of w.now.state) }
    requires walk { IsWalk calls.now order.now walk.old }
    ensures line { OnOk result (out.new.items ≡ out.old.items ++
        call_lines w.now.config w.now.state (places_of w.now.state) (entry.now ∷ [])) }
    ensures walk { OnOk result (IsWalk calls.now order.now walk.new) }
{
    match entry {
        Entry::Begin(call, stage, op) => {
            let begun = Begun {
                call: *call,
                stage: *stage,
                op,
                fate: w.fate(*call),
                place: held_at(placed, call.number()),
            };
            put_begun(alloc, out, w.config(), calls, order, walk, &begun)?;
            Ok(())
        }
        Entry::End(_, _) => Ok(()),
        Entry::Give(_, _) => Ok(()),
        Entry::Get(_, _) => Ok(()),
        Entry::Over(_, _) => Ok(()),
    }
}

// Appends the lines of all calls, one after another.
#[tactic(auto, using(crate::proofs::Lines::lines))]
fn put_each(
    alloc: Global,
    out: &mut Vec<u8>,
    w: &World,
    calls: &CallTables<'_>,
    order: &[CallId],
    placed: &[Option<usize>],
    walk: &mut Walk,
) -> Result<(), AllocError>
    requires history { calls.now ≡ w.now.state.history }
    requires order { order.now ≡ placed_calls (places_of w.now.state) }
    requires placed { (call : ℕ) → held placed.now call ≡ place_in call (places_of w.now.state) }
    requires walk { IsWalk calls.now order.now walk.old }
    ensures { OnOk result (out.new.items ≡
        out.old.items ++ call_lines w.now.config w.now.state (places_of w.now.state) w.now.state.history) }
{
    let history = w.history();
    for entry in history {
        put_entry(alloc, out, w, calls, order, placed, walk, entry)?;
    }
    Ok(())
}

// Appends the lines of all calls, by their places.
#[tactic(auto, using(crate::proofs::Lines::lines))]
fn put_lines(
    alloc: Global,
    out: &mut Vec<u8>,
    w: &World,
    order: &[CallId],
    placed: &[Option<usize>],
) -> Result<(), AllocError>
    requires order { order.now ≡ placed_calls (places_of w.now.state) }
    requires placed { (call : ℕ) → held placed.now call ≡ place_in call (places_of w.now.state) }
    ensures { OnOk result (out.new.items ≡
        out.old.items ++ call_lines w.now.config w.now.state (places_of w.now.state) w.now.state.history) }
{
    let calls = CallTables::new(alloc, w.history())?;
    let mut walk = Walk::new(alloc);
    put_each(alloc, out, w, &calls, order, placed, &mut walk)?;
    Ok(())
}

/// Appends the lines of the calls of a World, in the order of their beginnings.
#[tactic(auto, using(crate::proofs::Lines::placing))]
pub fn put_calls(
    alloc: Global,
    out: &mut Vec<u8>,
    w: &World,
    places: &[Placed],
) -> Result<(), AllocError>
    requires { places.now ≡ places_of w.now.state }
    ensures { OnOk result (out.new.items ≡
        out.old.items ++ call_lines w.now.config w.now.state places.now w.now.state.history) }
{
    let order = calls_of(alloc, places)?;
    let placed = places_by_call(alloc, places)?;
    put_lines(alloc, out, w, &order, &placed)?;
    Ok(())
}
