//! Locks as they are asked for.

use rss_names::{Attempt, Key, ServiceId, ShardId, is_same_attempt};
use shard_locks::{LockAnswer, LockTable};
use std::alloc::AllocError;
use std::test::Fail;

const X: Key = Key {
    service: ServiceId::Txn(1),
    index: 0,
};

// A key of the same service.
fn key(index: u16) -> Key {
    Key {
        service: ServiceId::Txn(1),
        index,
    }
}

// An attempt asks a table whose coordinator it names, with room for that.
fn asked(
    table: &mut LockTable,
    wounded: &mut Vec<Attempt>,
    call: u32,
    reads: &[Key],
    writes: &[Key],
) -> Result<LockAnswer, Fail> {
    let coordinator = ShardId::new(1).ok_or(AllocError)?;
    table.make_room(reads.len() + writes.len())?;
    wounded.clear();
    wounded.reserve(table.holders())?;
    let attempt = Attempt { call, k: 1 };
    Ok(table.ask(attempt, coordinator, reads, writes, &[], wounded))
}

// Whether an answer names the attempt of the first call, and no other, as the one in the way.
fn is_first_waited_for(answer: &LockAnswer) -> bool {
    match answer {
        LockAnswer::Wait(others) => match others.get(0) {
            Some(holder) => {
                others.len() == 1
                    && is_same_attempt(holder.attempt, Attempt { call: 1, k: 1 })
                    && holder.coordinator.number() == 1
            }
            None => false,
        },
        _ => false,
    }
}

#[test]
fn wounds_the_younger_and_lets_the_older_be(rt: HostRuntime) -> Result<(), Fail> {
    let alloc = rt.alloc();
    let mut table = LockTable::new(alloc);
    let mut wounded = Vec::new(alloc);
    let taken = asked(&mut table, &mut wounded, 2, &[], &[X])?;
    assert!(rt; matches!(taken, LockAnswer::Granted));
    let wounds = asked(&mut table, &mut wounded, 1, &[X], &[])?;
    assert!(rt; matches!(wounds, LockAnswer::Granted));
    assert!(rt; matches!(wounded.first(), Some(Attempt { call: 2, k: 1 })));
    let waits = asked(&mut table, &mut wounded, 3, &[], &[X])?;
    assert!(rt; is_first_waited_for(&waits));
    let again = asked(&mut table, &mut wounded, 2, &[], &[X])?;
    assert!(rt; matches!(again, LockAnswer::WoundedSelf));
    Ok(())
}

#[test]
fn finds_one_of_many_often(rt: HostRuntime) -> Result<(), Fail> {
    let alloc = rt.alloc();
    let mut table = LockTable::new(alloc);
    let mut wounded = Vec::new(alloc);
    for call in 1..20001u32 {
        let _taken = asked(&mut table, &mut wounded, call, &[], &[key(call as u16)])?;
    }
    let mut waits = 0u32;
    for _ask in 0..3_000_000u32 {
        let answer = asked(&mut table, &mut wounded, 30000, &[key(10000)], &[])?;
        if matches!(answer, LockAnswer::Wait(_)) {
            waits = waits.wrapping_add(1);
        }
    }
    assert_eq!(rt; waits, 3_000_000);
    Ok(())
}
