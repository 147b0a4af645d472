//! A shard on requests as they come.

ghost use Rattle.std.specs.Prelude.{◌≡◌};
ghost use Rattle.txn_shard.specs.ShardView.{has_small_times};

use rss_names::{Attempt, Key, Seq, ServiceId, ShardId, is_same_attempt, is_same_key};
use rss_wire::{Holder, Outcome, Reply, Request, Skipped, Version};
use std::alloc::{AllocError, Global};
use std::test::Fail;
use truetime::Interval;
use txn_shard::Shard;

const X: Key = Key {
    service: ServiceId::Txn(1),
    index: 0,
};

const FIRST: Attempt = Attempt { call: 1, k: 1 };

const SECOND: Attempt = Attempt { call: 2, k: 1 };

// Whether the times of a request are small.
#[tactic(auto, unfolding(txn_shard::specs::ShardView::has_small_times))]
fn are_small(r: &Request) -> bool
    ensures { result ≡ has_small_times r.now }
{
    match r {
        Request::Prepare { least, .. } => *least < 1 << 63,
        Request::Decide { time, .. } => *time < 1 << 63,
        Request::Commit { commit_time, .. } => *commit_time < 1 << 63,
        Request::Release { time, .. } => *time < 1 << 63,
        Request::Snapshot { read_time, .. } => *read_time < 1 << 63,
        _ => true,
    }
}

// The reply to a request in a step that ends at this time.
fn serve(shard: &mut Shard, r: Request, latest: u64) -> Result<Reply, AllocError> {
    shard.make_room(&r)?;
    match Interval::new(0, latest) {
        Some(at) if are_small(&r) => Ok(shard.handle(&r, at)),
        _ => Err(AllocError),
    }
}

// The coordinator of each attempt.
fn coordinator() -> Result<ShardId, AllocError> {
    ShardId::new(1).ok_or(AllocError)
}

fn list_of<T: Copy>(alloc: Global, items: &[T]) -> Result<Seq<T>, AllocError> {
    Ok(Seq::from_vec(Vec::from_slice(alloc, items)?))
}

fn lock(alloc: Global, attempt: Attempt, writes: &[Key]) -> Result<Request, AllocError> {
    Ok(Request::Lock {
        attempt,
        coordinator: coordinator()?,
        reads: Seq::new(alloc),
        writes: list_of(alloc, writes)?,
    })
}

fn prepare(alloc: Global, attempt: Attempt, earliest_end: u64) -> Result<Request, AllocError> {
    Ok(Request::Prepare {
        attempt,
        least: 0,
        earliest_end,
        writes: list_of(alloc, &[(X, 1)])?,
    })
}

fn snapshot(alloc: Global, read_time: u64, least: u64, skip: bool) -> Result<Request, AllocError> {
    Ok(Request::Snapshot {
        read_time,
        least,
        keys: list_of(alloc, &[X])?,
        skip,
    })
}

// Whether these are the first attempt alone.
fn is_first_alone(holders: &[Holder]) -> bool {
    match holders.first() {
        Some(holder) => {
            holders.len() == 1
                && is_same_attempt(holder.attempt, FIRST)
                && holder.coordinator.number() == 1
        }
        None => false,
    }
}

// Whether these are the first attempt alone, prepared at 74.
fn is_first_passed(skipped: &[Skipped]) -> bool {
    match skipped.first() {
        Some(passed) => {
            skipped.len() == 1
                && is_same_attempt(passed.attempt, FIRST)
                && passed.coordinator.number() == 1
                && passed.prepare_time == 74
        }
        None => false,
    }
}

// The version of the key, where these are its one version.
fn version_of(versions: &[(Key, Version)]) -> Option<Version> {
    match versions.first() {
        Some((key, version)) if versions.len() == 1 && is_same_key(*key, X) => Some(*version),
        _ => None,
    }
}

// What a reply tells, of the first attempt and of one key.
#[derive(Clone, Copy, PartialEq, Eq)]
enum Told {
    Granted,
    Wounded,
    Prepared(u64),
    Decided(Outcome),
    Known(Outcome),
    Done,
    Released,
    // The first attempt, and no other, is in the way.
    Blocked,
    // A version, and whether the first attempt was passed by or nobody.
    Shown(Version, bool),
    // Anything else.
    Other,
}

// What a snapshot was shown.
fn told_values(versions: &[(Key, Version)], skipped: &[Skipped]) -> Told {
    match version_of(versions) {
        Some(version) if skipped.is_empty() => Told::Shown(version, false),
        Some(version) if is_first_passed(skipped) => Told::Shown(version, true),
        _ => Told::Other,
    }
}

// What a reply tells.
fn tell(reply: &Reply) -> Told {
    match reply {
        Reply::Granted { .. } => Told::Granted,
        Reply::Wounded => Told::Wounded,
        Reply::Prepared { prepare_time } => Told::Prepared(*prepare_time),
        Reply::Decided { outcome } => Told::Decided(*outcome),
        Reply::Outcome { outcome } => Told::Known(*outcome),
        Reply::Done => Told::Done,
        Reply::Released => Told::Released,
        Reply::Blocked { holders } if is_first_alone(holders.as_slice()) => Told::Blocked,
        Reply::Values { versions, skipped } => {
            told_values(versions.as_slice(), skipped.as_slice())
        }
        _ => Told::Other,
    }
}

// What a shard tells in a step that ends at this time.
fn ask(shard: &mut Shard, r: Request, latest: u64) -> Result<Told, AllocError> {
    let reply = serve(shard, r, latest)?;
    Ok(tell(&reply))
}

// What a snapshot is told that may pass writers by, or not.
fn read(
    alloc: Global,
    shard: &mut Shard,
    time: u64,
    least: u64,
    skip: bool,
) -> Result<Told, AllocError> {
    ask(shard, snapshot(alloc, time, least, skip)?, 2000)
}

// The version before any write.
const OPENING: Version = Version {
    value: 0,
    time: 0,
    writer: 0,
};

// What the first attempt writes.
const WRITTEN: Version = Version {
    value: 1,
    time: 64,
    writer: 1,
};

// The first attempt locks, prepares and is decided to commit.
fn decide_first(alloc: Global, shard: &mut Shard) -> Result<[Told; 3], AllocError> {
    let granted = ask(shard, lock(alloc, FIRST, &[X])?, 24)?;
    let prepared = ask(shard, prepare(alloc, FIRST, 54)?, 44)?;
    let decide = Request::Decide {
        attempt: FIRST,
        commit: true,
        time: 44,
    };
    let decided = ask(shard, decide, 64)?;
    Ok([granted, prepared, decided])
}

// Somebody asks for the decision of the first attempt, and then it commits.
fn commit_first(shard: &mut Shard) -> Result<[Told; 2], AllocError> {
    let known = ask(shard, Request::Inquire { attempt: FIRST }, 114)?;
    let commit = Request::Commit {
        attempt: FIRST,
        commit_time: 64,
    };
    let done = ask(shard, commit, 134)?;
    Ok([known, done])
}

#[test]
fn a_snapshot_waits_for_a_completed_write(rt: HostRuntime) -> Result<(), Fail> {
    let alloc = rt.alloc();
    let mut shard = Shard::new(alloc, &[X])?;
    let outcome = Outcome::Committed(64);
    let begun = decide_first(alloc, &mut shard)?;
    assert!(rt; begun == [Told::Granted, Told::Prepared(44), Told::Decided(outcome)]);
    let waits = read(alloc, &mut shard, 84, 0, true)?;
    assert!(rt; waits == Told::Blocked);
    let ended = commit_first(&mut shard)?;
    assert!(rt; ended == [Told::Known(outcome), Told::Done]);
    let shown = read(alloc, &mut shard, 84, 0, true)?;
    assert!(rt; shown == Told::Shown(WRITTEN, false));
    assert_eq!(rt; shard.floor(), 84);
    Ok(())
}

// A shard at which the first attempt is prepared at 74, and its call can't end before 1054.
fn prepared_shard(alloc: Global) -> Result<Shard, AllocError> {
    let mut shard = Shard::new(alloc, &[X])?;
    let _granted = serve(&mut shard, lock(alloc, FIRST, &[X])?, 34)?;
    let _prepared = serve(&mut shard, prepare(alloc, FIRST, 1054)?, 74)?;
    Ok(shard)
}

#[test]
fn a_snapshot_passes_a_writer_above_its_least_time(rt: HostRuntime) -> Result<(), Fail> {
    let alloc = rt.alloc();
    let mut shard = prepared_shard(alloc)?;
    let past = Told::Shown(OPENING, true);
    let below = Told::Shown(OPENING, false);
    let rows = [
        (194, 0, true, past),
        (194, 74, true, Told::Blocked),
        (1054, 0, true, Told::Blocked),
        (73, 0, true, below),
        (194, 0, false, Told::Blocked),
    ];
    for (time, least, skip, want) in rows {
        let found = read(alloc, &mut shard, time, least, skip)?;
        assert!(rt; found == want, "at {time}, least {least}, skip {skip}");
    }
    Ok(())
}

// An attempt gives its locks back at a time.
fn release(attempt: Attempt, time: u64, last: bool) -> Request {
    Request::Release {
        attempt,
        time,
        last,
    }
}

// Both attempts ask for the key, and then the second one to prepare.
fn wound_second(alloc: Global, shard: &mut Shard) -> Result<[Told; 3], AllocError> {
    let second = ask(shard, lock(alloc, SECOND, &[X])?, 54)?;
    let first = ask(shard, lock(alloc, FIRST, &[X])?, 64)?;
    let prepared = ask(shard, prepare(alloc, SECOND, 0)?, 74)?;
    Ok([second, first, prepared])
}

// The second attempt releases, and then the first one twice.
fn release_both(shard: &mut Shard) -> Result<[Told; 3], AllocError> {
    let second = ask(shard, release(SECOND, 74, false), 84)?;
    let first = ask(shard, release(FIRST, 94, true), 94)?;
    let again = ask(shard, release(FIRST, 94, true), 104)?;
    Ok([second, first, again])
}

#[test]
fn a_younger_attempt_is_wounded_and_its_guard_too(rt: HostRuntime) -> Result<(), Fail> {
    let alloc = rt.alloc();
    let mut shard = Shard::new(alloc, &[X])?;
    let asked = wound_second(alloc, &mut shard)?;
    assert!(rt; asked == [Told::Granted, Told::Granted, Told::Wounded]);
    let released = release_both(&mut shard)?;
    assert!(rt; released == [Told::Wounded, Told::Released, Told::Released]);
    assert!(rt; matches!(shard.decision(FIRST), Some(Outcome::Aborted)));
    assert_eq!(rt; shard.floor(), 94);
    shard.reopen();
    assert!(rt; shard.decision(FIRST).is_none());
    Ok(())
}
