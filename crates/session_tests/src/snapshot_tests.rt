//! A snapshot that hears its shards: it reads x, y and z on shards 1, 2 and 3.

use crate::homes::{X, Y, Z, are_homed, holder, homes, one, shard, version};
use crate::sent::{Kind, next};
use rss_model::Shown;
use rss_names::{Key, Seq};
use rss_wire::{Reply, Skipped};
use session_outbox::Outbox;
use snapshot_reads::{Session, Snap};
use std::alloc::{AllocError, Global};
use std::test::Fail;
use truetime::Interval;

const KEYS: [Key; 3] = [X, Y, Z];

// Call 4, whose context has the least time 10.
fn call<'a>(keys: &'a [Key]) -> Snap<'a> {
    Snap {
        call: 4,
        keys,
        least: 10,
    }
}

// The session of a call that begins while the clock reads from 20 to 30, and has asked its shards.
fn started(alloc: Global, op: &Snap<'_>, out: &mut Outbox) -> Result<Session, Fail> {
    let homes = homes()?;
    if op.keys.is_empty() || op.keys.len() > 8 || !are_homed(&homes, op.keys) {
        return Err(AllocError.into());
    }
    let at = Interval::new(20, 30).ok_or(AllocError)?;
    let session = Session::new(alloc, &homes, op, at)?;
    Session::make_room(out)?;
    session.start(op, out);
    Ok(session)
}

// The session hears a reply of a shard.
fn hear(
    session: &mut Session,
    op: &Snap<'_>,
    from: u8,
    reply: &Reply,
    out: &mut Outbox,
) -> Result<bool, Fail> {
    session.make_room_for(reply, out)?;
    let line = session.place_of(shard(from)?).ok_or(AllocError)?;
    Ok(session.on_reply(op, line, reply, out))
}

// A key is shown with its value and time, and no writer was passed by.
fn plain(alloc: Global, key: Key, value: u64, time: u64) -> Result<Reply, Fail> {
    Ok(Reply::Values {
        versions: one(alloc, version(key, value, time))?,
        skipped: Seq::new(alloc),
    })
}

// The same, and a writer was passed by that is prepared at a time.
fn passing(alloc: Global, key: Key, time: u64, prepare_time: u64) -> Result<Reply, Fail> {
    let writer = holder()?;
    let skipped = Skipped {
        attempt: writer.attempt,
        coordinator: writer.coordinator,
        prepare_time,
    };
    Ok(Reply::Values {
        versions: one(alloc, version(key, 5, time))?,
        skipped: one(alloc, skipped)?,
    })
}

// x and y are shown, the newest at 25, and z at 8 past a writer that is prepared at a time.
fn shown_past(
    alloc: Global,
    session: &mut Session,
    op: &Snap<'_>,
    prepare_time: u64,
    out: &mut Outbox,
) -> Result<bool, Fail> {
    let _first = hear(session, op, 1, &plain(alloc, X, 1, 12)?, out)?;
    let _second = hear(session, op, 2, &plain(alloc, Y, 2, 25)?, out)?;
    hear(session, op, 3, &passing(alloc, Z, 8, prepare_time)?, out)
}

#[test]
fn reads_at_the_latest_of_the_clock(rt: HostRuntime) -> Result<(), Fail> {
    let alloc = rt.alloc();
    let op = call(&KEYS);
    let mut out = Outbox::new(alloc);
    let _session = started(alloc, &op, &mut out)?;
    assert!(rt;
        matches!(
            next(&mut out),
            Some((
                1,
                Kind::Snapshot {
                    time: 30,
                    skip: true
                }
            ))
        )
    );
    assert!(rt;
        matches!(
            next(&mut out),
            Some((
                2,
                Kind::Snapshot {
                    time: 30,
                    skip: true
                }
            ))
        )
    );
    assert!(rt;
        matches!(
            next(&mut out),
            Some((
                3,
                Kind::Snapshot {
                    time: 30,
                    skip: true
                }
            ))
        )
    );
    Ok(())
}

#[test]
fn asks_the_one_line_again_that_may_have_missed_a_writer(rt: HostRuntime) -> Result<(), Fail> {
    let alloc = rt.alloc();
    let op = call(&KEYS);
    let mut out = Outbox::new(alloc);
    let mut session = started(alloc, &op, &mut out)?;
    let _asked = (next(&mut out), next(&mut out), next(&mut out));
    let anew = shown_past(alloc, &mut session, &op, 25, &mut out)?;
    assert!(rt; anew);
    assert!(rt; session.end().is_none());
    let again = next(&mut out);
    assert!(rt;
        matches!(
            again,
            Some((
                3,
                Kind::Snapshot {
                    time: 25,
                    skip: false
                }
            ))
        )
    );
    assert!(rt; next(&mut out).is_none());
    let _anew = hear(&mut session, &op, 3, &plain(alloc, Z, 6, 25)?, &mut out)?;
    assert_eq!(rt; session.end(), Some(25));
    let mut list = Vec::new(alloc);
    list.reserve(op.keys.len())?;
    let reply = session.reply(&op, list);
    assert!(rt;
        matches!(
            reply.get(2),
            Some(Shown {
                value: 6,
                writer: 1,
                ..
            })
        )
    );
    Ok(())
}

#[test]
fn ends_at_once_where_the_writer_passed_by_comes_later(rt: HostRuntime) -> Result<(), Fail> {
    let alloc = rt.alloc();
    let op = call(&KEYS);
    let mut out = Outbox::new(alloc);
    let mut session = started(alloc, &op, &mut out)?;
    let _asked = (next(&mut out), next(&mut out), next(&mut out));
    let anew = shown_past(alloc, &mut session, &op, 26, &mut out)?;
    assert!(rt; !anew);
    assert!(rt; next(&mut out).is_none());
    assert_eq!(rt; session.end(), Some(25));
    Ok(())
}
