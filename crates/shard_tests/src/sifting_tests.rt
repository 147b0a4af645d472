//! Sifting as it is called.

use rss_names::{Attempt, Key, Seq, ServiceId, ShardId};
use rss_wire::{Holder, Skipped};
use shard_prepared::{PreparedTable, PreparedWriter};
use std::alloc::{AllocError, Global};
use std::test::Fail;

// A key of the first transaction service.
fn key(index: u16) -> Key {
    Key {
        service: ServiceId::Txn(1),
        index,
    }
}

// Adds the first attempt of a call, which writes one key.
fn prepare(
    alloc: Global,
    table: &mut PreparedTable,
    call: u32,
    key: Key,
) -> Result<(), AllocError> {
    table.make_room(1)?;
    let attempt = Attempt { call, k: 1 };
    let coordinator = ShardId::new(1).ok_or(AllocError)?;
    let writes = Seq::from_vec(Vec::from_slice(alloc, &[(key, 7)])?);
    if table.get(attempt).is_none() {
        table.add(PreparedWriter::new(attempt, coordinator, 74, 1054, writes));
    }
    Ok(())
}

// How many writers of a key block a read, and how many it passes by.
fn sift(
    table: &PreparedTable,
    blocking: &mut Vec<Holder>,
    skipped: &mut Vec<Skipped>,
    key: Key,
    read_time: u64,
    least: u64,
    skip: bool,
) -> Result<(usize, usize), AllocError> {
    blocking.clear();
    blocking.reserve(table.len())?;
    skipped.clear();
    skipped.reserve(table.len())?;
    table.sift(&[key], read_time, least, skip, blocking, skipped);
    Ok((blocking.len(), skipped.len()))
}

#[test]
fn waits_passes_by_or_neither(rt: HostRuntime) -> Result<(), Fail> {
    let alloc = rt.alloc();
    let mut table = PreparedTable::new(alloc);
    prepare(alloc, &mut table, 1, key(0))?;
    let mut blocking = Vec::new(alloc);
    let mut skipped = Vec::new(alloc);
    let rows = [
        (194, 0, true, (0, 1)),
        (194, 74, true, (1, 0)),
        (73, 0, true, (0, 0)),
        (1054, 0, true, (1, 0)),
        (194, 0, false, (1, 0)),
    ];
    for (read_time, least, skip, want) in rows {
        let found = sift(
            &table,
            &mut blocking,
            &mut skipped,
            key(0),
            read_time,
            least,
            skip,
        )?;
        assert_eq!(rt; found, want, "at {read_time}, least {least}, skip {skip}");
    }
    Ok(())
}

#[test]
fn sifts_one_of_many_often(rt: HostRuntime) -> Result<(), Fail> {
    let alloc = rt.alloc();
    let mut table = PreparedTable::new(alloc);
    for call in 1..20001u32 {
        prepare(alloc, &mut table, call, key(call as u16))?;
    }
    let mut blocking = Vec::new(alloc);
    let mut skipped = Vec::new(alloc);
    let mut sum = 0u64;
    for _read in 0..5_000_000u32 {
        let found = sift(
            &table,
            &mut blocking,
            &mut skipped,
            key(10000),
            194,
            0,
            false,
        )?;
        sum = sum.wrapping_add(found.0 as u64);
    }
    assert_eq!(rt; sum, 5_000_000);
    Ok(())
}
