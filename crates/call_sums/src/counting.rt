//! Sums of the calls of a history.

ghost use Rattle.std.specs.Prelude.{◌≡◌, ◌<◌, ◌^◌, true, IfOk};
ghost use Rattle.rss_model.specs.History.{has_ended};
ghost use Rattle.rss_machine.specs.ReportText.{counts_begin, sums_of as table_sums};
ghost use Rattle.call_sums.specs.Sums.{AreBelow, after_entry, counts_open, told};

use call_tables::CallTables;
use rss_model::{Entry, Op};
use rss_names::CallId;
use std::alloc::{AllocError, Global};

/// How many calls of each kind a history begins, and how many of them have not ended.
#[derive(Clone, Copy, Debug, PartialEq, Eq)]
pub struct Sums {
    pub reads: usize,
    pub writes: usize,
    pub snaps: usize,
    pub txns: usize,
    pub not_ended: usize,
}

/// The sums of the calls of a history, made in one pass. An `Err` is want of memory.
pub fn sums_of(alloc: Global, history: &[Entry]) -> Result<Sums, AllocError>
    ensures { IfOk result (λ sums. told sums ≡ table_sums history.now history.now) }
{
    let calls = CallTables::new(alloc, history)?;
    Ok(sums_by(&calls, history))
}

// The sums of the calls of a history, by its tables.
fn sums_by(calls: &CallTables<'_>, history: &[Entry]) -> Sums
    requires same { calls.now ≡ history.now }
    ensures { told result ≡ table_sums history.now history.now }
{
    let mut sums = Sums {
        reads: 0,
        writes: 0,
        snaps: 0,
        txns: 0,
        not_ended: 0,
    };
    for entry in history {
        count_entry(&mut sums, calls, entry);
    }
    sums
}

// Counts the call that an entry begins, if it begins one.
fn count_entry(sums: &mut Sums, calls: &CallTables<'_>, entry: &Entry)
    requires few { AreBelow sums.old (2 ^ 63) }
    ensures { told sums.new ≡ after_entry calls.now entry.now (told sums.old) }
{
    match entry {
        Entry::Begin(call, _, op) => {
            let ended = has_ended(calls, *call);
            count_kind(sums, op);
            count_open(sums, ended);
        }
        Entry::End(_, _) => {}
        Entry::Give(_, _) => {}
        Entry::Get(_, _) => {}
        Entry::Over(_, _) => {}
    }
}

// Counts a call by its kind.
fn count_kind(sums: &mut Sums, op: &Op)
    requires few { AreBelow sums.old (2 ^ 63) }
    ensures counted { told sums.new ≡ counts_begin op.now true (told sums.old) }
    ensures rest { sums.new.not_ended ≡ sums.old.not_ended }
{
    match op {
        Op::Read(_) => sums.reads += 1,
        Op::Write(_, _) => sums.writes += 1,
        Op::Snap(_) => sums.snaps += 1,
        Op::Txn(_, _, _) => sums.txns += 1,
    }
}

// Counts a call among those that have not ended, unless it has.
fn count_open(sums: &mut Sums, ended: bool)
    requires few { sums.old.not_ended < 2 ^ 63 }
    ensures { told sums.new ≡ counts_open ended (told sums.old) }
{
    if !ended {
        sums.not_ended += 1;
    }
}

// Whether a call has ended.
#[tactic(auto, using(crate::proofs::Ended::found))]
fn has_ended(calls: &CallTables<'_>, call: CallId) -> bool
    ensures { result ≡ has_ended calls.now call }
{
    match calls.reply_of(call) {
        Some(_) => true,
        None => false,
    }
}
