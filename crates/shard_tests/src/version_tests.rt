//! Versions as they are written and read.

use rss_names::{Key, ServiceId};
use rss_wire::Version;
use shard_versions::Versions;
use std::alloc::{AllocError, Global};
use std::test::Fail;

const KEY: Key = Key {
    service: ServiceId::Txn(1),
    index: 0,
};

// Versions of one key at the times 1 to 20,000.
fn many(alloc: Global) -> Result<Versions, AllocError> {
    let mut versions = Versions::new(alloc, &[KEY])?;
    for time in 1..20001u32 {
        versions.make_room(KEY)?;
        if !versions.is_written_since(KEY, time as u64) {
            versions.push(
                KEY,
                Version {
                    value: 7,
                    time: time as u64,
                    writer: time,
                },
            );
        }
    }
    Ok(versions)
}

#[test]
fn finds_the_newest_not_above(rt: HostRuntime) -> Result<(), Fail> {
    let mut versions = Versions::new(rt.alloc(), &[KEY])?;
    for (value, time) in [(7, 10), (8, 20)] {
        versions.make_room(KEY)?;
        if !versions.is_written_since(KEY, time) {
            versions.push(
                KEY,
                Version {
                    value,
                    time,
                    writer: 1,
                },
            );
        }
    }
    for (time, want) in [(9, (0, 0)), (19, (7, 10)), (20, (8, 20))] {
        let found = versions.at(KEY, time);
        assert_eq!(rt; (found.value, found.time), want, "at {time}");
    }
    Ok(())
}

#[test]
fn reads_one_of_many_often(rt: HostRuntime) -> Result<(), Fail> {
    let versions = many(rt.alloc())?;
    let mut sum = 0u64;
    for _read in 0..30_000_000u32 {
        sum = sum.wrapping_add(versions.at(KEY, 10000).time);
    }
    assert_eq!(rt; sum, 300_000_000_000);
    Ok(())
}
