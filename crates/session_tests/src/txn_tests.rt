//! A read-write transaction that hears its shards: it reads x on shard 1, and writes x and y on shards 1
//! and 2.

ghost use Rattle.std.specs.Prelude.{◌≡◌, IfOk};
ghost use Rattle.rss_tables.specs.TransactionSession.{written_keys};

use crate::homes::{X, Y, are_homed, holder, homes, one, shard, version};
use crate::sent::{Kind, next};
use pipeline_lang::{Compare, Expr, Term};
use rss_names::{Key, Seq};
use rss_wire::{Outcome, Reply};
use session_outbox::Outbox;
use std::alloc::{AllocError, Global};
use std::test::Fail;
use truetime::Interval;
use two_phase::{Session, Txn};

const READS: [Key; 1] = [X];

// x is to be one more than it was, and y is 7
const WRITES: [(Key, Expr<u8>); 2] = [
    (X, Expr::Plus(Term::Variable(0), Term::Number(1))),
    (Y, Expr::One(Term::Number(7))),
];

// whether x is below one more than it
const GROWS: Compare<u8> = Compare::Less(
    Expr::One(Term::Variable(0)),
    Expr::Plus(Term::Variable(0), Term::Number(1)),
);

// Call 3, whose context has the least time 10, and whose stage may end 5 after its clock.
fn call<'a>(
    reads: &'a [Key],
    writes: &'a [(Key, Expr<u8>)],
    guard: Option<Compare<u8>>,
) -> Txn<'a> {
    Txn {
        call: 3,
        reads,
        guard,
        writes,
        least: 10,
        margin: 5,
    }
}

// The clock reads from 20 to 30.
fn clock() -> Result<Interval, Fail> {
    Ok(Interval::new(20, 30).ok_or(AllocError)?)
}

// The keys of writes.
fn keys_of(alloc: Global, writes: &[(Key, Expr<u8>)]) -> Result<Vec<Key>, AllocError>
    ensures { IfOk result (λ keys. keys.items ≡ written_keys writes.now) }
{
    writes.iter().map(|write| write.0).collect(alloc)
}

// The session of a call, which has asked for its locks.
fn started(alloc: Global, op: &Txn<'_>, out: &mut Outbox) -> Result<Session, Fail> {
    let homes = homes()?;
    let written = keys_of(alloc, op.writes)?;
    if op.writes.is_empty() || op.writes.len() > 8 || op.reads.len() > 8 {
        return Err(AllocError.into());
    }
    if !are_homed(&homes, op.reads) || !are_homed(&homes, written.as_slice()) {
        return Err(AllocError.into());
    }
    let session = Session::new(alloc, &homes, op)?;
    Session::make_room(out)?;
    session.start(op, out);
    Ok(session)
}

// The session hears a reply of a shard.
fn hear(
    session: &mut Session,
    op: &Txn<'_>,
    from: u8,
    reply: &Reply,
    out: &mut Outbox,
) -> Result<bool, Fail> {
    if op.writes.len() > 8 || op.margin > 5 || session.attempt(op).k > 9 {
        return Err(AllocError.into());
    }
    session.make_room_for(reply, out)?;
    let line = session.place_of(shard(from)?).ok_or(AllocError)?;
    Ok(session.on_reply(op, clock()?, line, reply, out))
}

// All locks are granted, and x is shown.
fn grant(
    alloc: Global,
    session: &mut Session,
    op: &Txn<'_>,
    value: u64,
    out: &mut Outbox,
) -> Result<(), Fail> {
    let shown = one(alloc, version(X, value, 9))?;
    let _anew = hear(session, op, 1, &Reply::Granted { shown }, out)?;
    let _locks = (next(out), next(out));
    let nothing = Seq::new(alloc);
    let _anew = hear(session, op, 2, &Reply::Granted { shown: nothing }, out)?;
    Ok(())
}

#[test]
fn asks_for_locks_and_prepares_when_it_has_all(rt: HostRuntime) -> Result<(), Fail> {
    let alloc = rt.alloc();
    let op = call(&READS, &WRITES, None);
    let mut out = Outbox::new(alloc);
    let mut session = started(alloc, &op, &mut out)?;
    assert!(rt; matches!(next(&mut out), Some((1, Kind::Lock { k: 1 }))));
    assert!(rt; matches!(next(&mut out), Some((2, Kind::Lock { k: 1 }))));
    grant(alloc, &mut session, &op, 4, &mut out)?;
    let to_first = next(&mut out);
    assert!(rt;
        matches!(
            to_first,
            Some((
                1,
                Kind::Prepare {
                    earliest_end: 35,
                    value: 5
                }
            ))
        )
    );
    let to_second = next(&mut out);
    assert!(rt;
        matches!(
            to_second,
            Some((
                2,
                Kind::Prepare {
                    earliest_end: 35,
                    value: 7
                }
            ))
        )
    );
    Ok(())
}

#[test]
fn begins_anew_where_it_is_wounded_between_two_prepares(rt: HostRuntime) -> Result<(), Fail> {
    let alloc = rt.alloc();
    let op = call(&READS, &WRITES, None);
    let mut out = Outbox::new(alloc);
    let mut session = started(alloc, &op, &mut out)?;
    grant(alloc, &mut session, &op, 4, &mut out)?;
    let _prepares = (next(&mut out), next(&mut out));
    let _anew = hear(
        &mut session,
        &op,
        1,
        &Reply::Prepared { prepare_time: 40 },
        &mut out,
    )?;
    assert!(rt; next(&mut out).is_none());
    let anew = hear(&mut session, &op, 2, &Reply::Wounded, &mut out)?;
    assert!(rt; anew);
    let undoes = next(&mut out);
    assert!(rt;
        matches!(
            undoes,
            Some((
                1,
                Kind::Decide {
                    commit: false,
                    time: 0
                }
            ))
        )
    );
    let outcome = Outcome::Aborted;
    let _anew = hear(&mut session, &op, 1, &Reply::Decided { outcome }, &mut out)?;
    assert!(rt; matches!(next(&mut out), Some((1, Kind::Abort { k: 1 }))));
    assert!(rt; matches!(next(&mut out), Some((2, Kind::Abort { k: 1 }))));
    assert!(rt; matches!(next(&mut out), Some((1, Kind::Lock { k: 2 }))));
    assert!(rt; matches!(next(&mut out), Some((2, Kind::Lock { k: 2 }))));
    Ok(())
}

#[test]
fn commits_when_its_commit_time_has_passed(rt: HostRuntime) -> Result<(), Fail> {
    let alloc = rt.alloc();
    let op = call(&READS, &WRITES, None);
    let mut out = Outbox::new(alloc);
    let mut session = started(alloc, &op, &mut out)?;
    grant(alloc, &mut session, &op, 4, &mut out)?;
    let _prepares = (next(&mut out), next(&mut out));
    let _first = hear(
        &mut session,
        &op,
        1,
        &Reply::Prepared { prepare_time: 40 },
        &mut out,
    )?;
    let _last = hear(
        &mut session,
        &op,
        2,
        &Reply::Prepared { prepare_time: 44 },
        &mut out,
    )?;
    let asked = next(&mut out);
    assert!(rt;
        matches!(
            asked,
            Some((
                1,
                Kind::Decide {
                    commit: true,
                    time: 44
                }
            ))
        )
    );
    let outcome = Outcome::Committed(44);
    let _anew = hear(&mut session, &op, 1, &Reply::Decided { outcome }, &mut out)?;
    assert_eq!(rt; session.waiting_time(&op), Some(44));
    assert!(rt; next(&mut out).is_none());
    Session::make_room(&mut out)?;
    session.pass(&op, &mut out);
    assert!(rt; matches!(next(&mut out), Some((1, Kind::Commit { time: 44 }))));
    assert!(rt; matches!(next(&mut out), Some((2, Kind::Commit { time: 44 }))));
    assert_eq!(rt; session.end(), Some(44));
    assert!(rt; !session.has_failed());
    Ok(())
}

#[test]
fn releases_where_its_guard_fails_over_the_greatest_value(rt: HostRuntime) -> Result<(), Fail> {
    let alloc = rt.alloc();
    let op = call(&READS, &WRITES, Some(GROWS));
    let mut out = Outbox::new(alloc);
    let mut session = started(alloc, &op, &mut out)?;
    grant(alloc, &mut session, &op, u64::MAX, &mut out)?;
    let released = next(&mut out);
    assert!(rt;
        matches!(
            released,
            Some((
                2,
                Kind::Release {
                    time: 30,
                    last: false
                }
            ))
        )
    );
    assert!(rt; next(&mut out).is_none());
    let _anew = hear(&mut session, &op, 2, &Reply::Released, &mut out)?;
    let last = next(&mut out);
    assert!(rt;
        matches!(
            last,
            Some((
                1,
                Kind::Release {
                    time: 30,
                    last: true
                }
            ))
        )
    );
    let _anew = hear(&mut session, &op, 1, &Reply::Released, &mut out)?;
    assert_eq!(rt; session.end(), Some(30));
    assert!(rt; session.has_failed());
    Ok(())
}

#[test]
fn begins_anew_where_a_release_finds_it_wounded(rt: HostRuntime) -> Result<(), Fail> {
    let alloc = rt.alloc();
    let op = call(&READS, &WRITES, Some(GROWS));
    let mut out = Outbox::new(alloc);
    let mut session = started(alloc, &op, &mut out)?;
    grant(alloc, &mut session, &op, u64::MAX, &mut out)?;
    let _release = next(&mut out);
    let _anew = hear(&mut session, &op, 2, &Reply::Wounded, &mut out)?;
    let undoes = next(&mut out);
    assert!(rt;
        matches!(
            undoes,
            Some((
                1,
                Kind::Decide {
                    commit: false,
                    time: 0
                }
            ))
        )
    );
    assert!(rt; session.end().is_none());
    Ok(())
}

#[test]
fn asks_again_each_time_that_a_line_wakes(rt: HostRuntime) -> Result<(), Fail> {
    let alloc = rt.alloc();
    let op = call(&READS, &WRITES, None);
    let mut out = Outbox::new(alloc);
    let mut session = started(alloc, &op, &mut out)?;
    let _locks = (next(&mut out), next(&mut out));
    let holders = one(alloc, holder()?)?;
    let _anew = hear(&mut session, &op, 1, &Reply::Wait { holders }, &mut out)?;
    assert!(rt; matches!(next(&mut out), Some((2, Kind::Inquire { call: 1 }))));
    for _time in 0..2u8 {
        let _anew = hear(&mut session, &op, 1, &Reply::Open, &mut out)?;
        let line = session.place_of(shard(1)?).ok_or(AllocError)?;
        assert!(rt; session.asleep_on(line).is_some());
        Session::make_room(&mut out)?;
        session.wake(&op, line, &mut out);
        assert!(rt; matches!(next(&mut out), Some((2, Kind::Inquire { call: 1 }))));
    }
    let outcome = Outcome::Aborted;
    let _anew = hear(&mut session, &op, 1, &Reply::Outcome { outcome }, &mut out)?;
    assert!(rt; matches!(next(&mut out), Some((1, Kind::Abort { k: 1 }))));
    let _anew = hear(&mut session, &op, 1, &Reply::Done, &mut out)?;
    assert!(rt; matches!(next(&mut out), Some((1, Kind::Lock { k: 1 }))));
    Ok(())
}
