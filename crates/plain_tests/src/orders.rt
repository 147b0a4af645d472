//! Histories with an order in which they are regular, each also with one change after which it is
//! not.

use crate::telling::{Q, R, Telling};
use pipeline_lang::{Expr, Term};
use plain_model::{causal, legal, regular};
use rss_model::{Candidate, Formula, Guard, History, How, Op, Shown};
use rss_names::{CallId, Key, Seq, ServiceId};
use std::alloc::{AllocError, Global};
use std::test::Fail;

/// A key of a transaction service.
const X: Key = Key {
    service: ServiceId::Txn(1),
    index: 0,
};
/// Another key of it.
const Z: Key = Key {
    service: ServiceId::Txn(1),
    index: 1,
};

/// Whether an order is legal, and whether it is regular.
type Verdict = (bool, bool);

// What is shown of a key.
fn seen(key: Key, value: u64, writer: u32) -> Shown {
    Shown { key, value, writer }
}

// An operation that reads keys.
fn snap(alloc: Global, keys: &[Key]) -> Result<Op, AllocError> {
    Ok(Op::Snap(Seq::from_vec(Vec::from_slice(alloc, keys)?)))
}

// An operation that reads keys, and then writes formulas if its guard is true.
fn txn(
    alloc: Global,
    keys: &[Key],
    guard: Option<Guard>,
    writes: &[(Key, Formula)],
) -> Result<Op, AllocError> {
    let keys = Seq::from_vec(Vec::from_slice(alloc, keys)?);
    let writes = Seq::from_vec(Vec::from_slice(alloc, writes)?);
    Ok(Op::Txn(keys, guard, writes))
}

// The formula of a number.
fn number(n: u64) -> Formula {
    Expr::One(Term::Number(n))
}

// Writes 1 to both keys.
fn both(alloc: Global) -> Result<Op, AllocError> {
    txn(alloc, &[], None, &[(X, number(1)), (Z, number(1))])
}

// An order of calls.
fn order(alloc: Global, calls: &[u32]) -> Result<Candidate, AllocError> {
    let mut order = Vec::new(alloc);
    for call in calls {
        if let Some(call) = CallId::new(*call) {
            order.push(call)?;
        }
    }
    Ok(Seq::from_vec(order))
}

// What an order of a history is.
fn judged(alloc: Global, h: &History, calls: &[u32]) -> Result<Verdict, AllocError> {
    let c = order(alloc, calls)?;
    Ok((legal(alloc, h, &c)?, regular(alloc, h, &c)?))
}

// A stage writes a register and reads it.
fn smallest(alloc: Global, read: Shown) -> Result<History, AllocError> {
    let mut telling = Telling::new(alloc);
    telling.call(1, 1, Op::Write(R, 5), &[])?;
    telling.call(2, 1, Op::Read(R), &[read])?;
    Ok(telling.told())
}

// Two stages write two registers, the second one before the first one has ended, or behind it.
fn two_writes(alloc: Global, one_by_one: bool) -> Result<History, AllocError> {
    let mut telling = Telling::new(alloc);
    telling.begin(1, 1, Op::Write(R, 1))?;
    if one_by_one {
        telling.end(1, &[])?;
    }
    telling.call(2, 2, Op::Write(Q, 2), &[])?;
    if !one_by_one {
        telling.end(1, &[])?;
    }
    Ok(telling.told())
}

// A snapshot of what an open transaction has not written yet.
fn early_snapshot(alloc: Global) -> Result<History, AllocError> {
    let mut telling = Telling::new(alloc);
    telling.begin(1, 1, both(alloc)?)?;
    telling.call(2, 2, snap(alloc, &[X, Z])?, &[seen(X, 0, 0), seen(Z, 0, 0)])?;
    Ok(telling.told())
}

// Two snapshots of one stage, of what an open transaction writes.
fn two_snapshots(alloc: Global) -> Result<History, AllocError> {
    let mut telling = Telling::new(alloc);
    telling.begin(1, 1, both(alloc)?)?;
    telling.call(3, 2, snap(alloc, &[X])?, &[seen(X, 1, 1)])?;
    telling.call(4, 2, snap(alloc, &[Z])?, &[seen(Z, 1, 1)])?;
    Ok(telling.told())
}

// An open transaction, whose write is read before the others, and a register between them.
fn entry(alloc: Global) -> Result<History, AllocError> {
    let more = Expr::Plus(Term::Variable(0), Term::Number(1));
    let mut telling = Telling::new(alloc);
    telling.begin(1, 1, both(alloc)?)?;
    telling.call(
        2,
        2,
        txn(alloc, &[X], None, &[(X, more)])?,
        &[seen(X, 1, 1)],
    )?;
    telling.call(3, 3, Op::Write(R, 7), &[])?;
    telling.call(4, 4, Op::Read(R), &[seen(R, 7, 3)])?;
    telling.call(5, 4, snap(alloc, &[Z])?, &[seen(Z, 1, 1)])?;
    Ok(telling.told())
}

// A write of a killed stage that was read.
fn unfinished_write(alloc: Global) -> Result<History, AllocError> {
    let mut telling = Telling::new(alloc);
    telling.begin(1, 1, Op::Write(R, 5))?;
    telling.over(1, How::Killed)?;
    telling.give_exit(1)?;
    telling.call(3, 2, Op::Read(R), &[seen(R, 5, 1)])?;
    Ok(telling.told())
}

// A transaction fails on what another one wrote, and then a register is written.
fn failed(alloc: Global) -> Result<History, AllocError> {
    let guard = Guard::Less(Expr::One(Term::Variable(0)), number(1));
    let mut telling = Telling::new(alloc);
    telling.call(1, 1, txn(alloc, &[], None, &[(X, number(1))])?, &[])?;
    telling.call(
        2,
        2,
        txn(alloc, &[X], Some(guard), &[(X, number(9))])?,
        &[seen(X, 1, 1)],
    )?;
    telling.call(3, 3, Op::Write(R, 1), &[])?;
    Ok(telling.told())
}

// The histories of the tests: each function makes one and says what an order of it is, so that no
// test holds a history.

fn of_smallest(alloc: Global, read: Shown, calls: &[u32]) -> Result<Verdict, AllocError> {
    judged(alloc, &smallest(alloc, read)?, calls)
}

fn of_two_writes(alloc: Global, one_by_one: bool, calls: &[u32]) -> Result<Verdict, AllocError> {
    judged(alloc, &two_writes(alloc, one_by_one)?, calls)
}

fn of_unfinished_write(alloc: Global, calls: &[u32]) -> Result<Verdict, AllocError> {
    judged(alloc, &unfinished_write(alloc)?, calls)
}

fn of_early_snapshot(alloc: Global, calls: &[u32]) -> Result<Verdict, AllocError> {
    judged(alloc, &early_snapshot(alloc)?, calls)
}

fn of_two_snapshots(alloc: Global, calls: &[u32]) -> Result<Verdict, AllocError> {
    judged(alloc, &two_snapshots(alloc)?, calls)
}

fn of_failed(alloc: Global, calls: &[u32]) -> Result<Verdict, AllocError> {
    judged(alloc, &failed(alloc)?, calls)
}

fn of_entry(alloc: Global, calls: &[u32]) -> Result<Verdict, AllocError> {
    judged(alloc, &entry(alloc)?, calls)
}

// The numbers of the pairs of potential causality in the entry's history.
fn causal_numbers(alloc: Global) -> Result<Vec<(u32, u32)>, AllocError> {
    let pairs = causal(alloc, &entry(alloc)?)?;
    let mut numbers = Vec::new(alloc);
    for (a, b) in &pairs {
        numbers.push((a.number(), b.number()))?;
    }
    Ok(numbers)
}

#[test]
fn registers(rt: HostRuntime) -> Result<(), Fail> {
    let alloc = rt.alloc();
    let own = seen(R, 5, 1);
    let other = seen(R, 5, 2);
    let rows = [
        ("smallest", of_smallest(alloc, own, &[1, 2])?, (true, true)),
        ("twice", of_smallest(alloc, own, &[1, 2, 2])?, (true, false)),
        (
            "another writer",
            of_smallest(alloc, other, &[1, 2])?,
            (false, false),
        ),
        (
            "place is not number",
            of_two_writes(alloc, false, &[2, 1])?,
            (true, true),
        ),
        (
            "one by one",
            of_two_writes(alloc, true, &[2, 1])?,
            (true, false),
        ),
        (
            "unfinished write",
            of_unfinished_write(alloc, &[1, 3])?,
            (true, true),
        ),
        (
            "without its write",
            of_unfinished_write(alloc, &[3])?,
            (false, false),
        ),
    ];
    for (name, verdict, wanted) in rows {
        assert_eq!(rt; verdict, wanted, "{name}");
    }
    Ok(())
}

#[test]
fn transactions(rt: HostRuntime) -> Result<(), Fail> {
    let alloc = rt.alloc();
    let rows = [
        ("early", of_early_snapshot(alloc, &[2, 1])?, (true, true)),
        (
            "not shown",
            of_early_snapshot(alloc, &[1, 2])?,
            (false, false),
        ),
        (
            "in order",
            of_two_snapshots(alloc, &[1, 3, 4])?,
            (true, true),
        ),
        (
            "not causal",
            of_two_snapshots(alloc, &[1, 4, 3])?,
            (true, false),
        ),
        (
            "a failed one is a read",
            of_failed(alloc, &[1, 3, 2])?,
            (true, true),
        ),
        (
            "not failed there",
            of_failed(alloc, &[2, 1, 3])?,
            (false, false),
        ),
        ("entry", of_entry(alloc, &[1, 2, 3, 4, 5])?, (true, true)),
        (
            "exchanged",
            of_entry(alloc, &[5, 2, 3, 4, 1])?,
            (false, false),
        ),
    ];
    for (name, verdict, wanted) in rows {
        assert_eq!(rt; verdict, wanted, "{name}");
    }
    Ok(())
}

#[test]
fn causes(rt: HostRuntime) -> Result<(), Fail> {
    let pairs = [(1, 2), (1, 5), (3, 4), (3, 5), (4, 5)];
    assert_eq!(rt; causal_numbers(rt.alloc())?.as_slice(), pairs.as_slice());
    Ok(())
}
