//! A run over three registers that stops at each of its writes and syncs.

use crate::kept::{Kept, SIZE};
use crate::plain::{Accept, Asked, Held, NEW, Registers, behind, is_front};
use carstamps::Carstamp;
use causal_context::Dep;
use replica_disk::MemDisk;
use rss_names::{Key, Seq, ServiceId};
use rss_wire::Request;
use std::alloc::{AllocError, Global};
use std::test::Fail;

// A value for a register; the call of its stamp wrote it.
fn value(register: u16, number: u64, call: u32, value: u64) -> Accept {
    Accept {
        register,
        held: Held {
            number,
            call,
            value,
            writer: call,
        },
    }
}

// What is asked of the replica, one after another: among it stamps that come again, and old ones. Each register
// is replaced five times.
fn run_of_requests() -> [Asked; 15] {
    [
        Asked::Store(value(0, 1, 1, 10)),
        Asked::Store(value(1, 1, 2, 20)),
        Asked::Store(value(2, 1, 3, 30)),
        Asked::Store(value(0, 2, 4, 11)),
        Asked::Store(value(0, 1, 1, 10)),
        Asked::Fix(value(1, 2, 5, 21), value(2, 2, 6, 31)),
        Asked::Store(value(1, 1, 7, 22)),
        Asked::Fix(value(0, 3, 8, 12), value(1, 3, 9, 23)),
        Asked::Store(value(2, 2, 6, 31)),
        Asked::Store(value(2, 2, 10, 32)),
        Asked::Fix(value(0, 2, 11, 13), value(2, 4, 12, 33)),
        Asked::Store(value(0, 4, 13, 14)),
        Asked::Store(value(1, 4, 14, 24)),
        Asked::Fix(value(1, 5, 15, 25), value(0, 5, 16, 15)),
        Asked::Store(value(2, 5, 17, 34)),
    ]
}

// The writes and syncs of the run: one sync of the opening, and for each of three registers 4 for each of its first
// two replacements and 6 for each of the three later ones.
const CALLS: u32 = 79;

fn key_of(accept: Accept) -> Key {
    Key {
        service: ServiceId::Reg(1),
        index: accept.register,
    }
}

fn stamp_of(accept: Accept) -> Carstamp {
    Carstamp {
        number: accept.held.number,
        call: accept.held.call,
    }
}

fn dep_of(accept: Accept) -> Dep {
    Dep {
        key: key_of(accept),
        value: accept.held.value,
        stamp: stamp_of(accept),
        writer: accept.held.writer,
    }
}

fn request_of(alloc: Global, asked: Asked) -> Result<Request, AllocError> {
    match asked {
        Asked::Store(accept) => Ok(Request::Store {
            key: key_of(accept),
            value: accept.held.value,
            stamp: stamp_of(accept),
            writer: accept.held.writer,
        }),
        Asked::Fix(one, other) => {
            let deps = Vec::from_slice(alloc, &[dep_of(one), dep_of(other)])?;
            Ok(Request::Fix {
                deps: Seq::from_vec(deps),
            })
        }
    }
}

// A replica on its way: how often its disk stopped, and whether a stop lost what was acknowledged.
#[derive(Drop)]
struct Run {
    kept: Kept,
    stops: u32,
    lost: bool,
}

// Opens a disk that has stopped.
fn opened_again(alloc: Global, disk: MemDisk) -> Result<Kept, AllocError> {
    match Kept::open(alloc, disk)? {
        Ok(kept) => Ok(kept),
        Err(_) => Err(AllocError),
    }
}

// A replica on a new disk that stops at the call of this number.
fn begun(alloc: Global, stop: u32) -> Result<Run, AllocError> {
    let disk = MemDisk::new(alloc, SIZE, stop)?;
    match Kept::open(alloc, disk)? {
        Ok(kept) => Ok(Run {
            kept,
            stops: 0,
            lost: false,
        }),
        Err(disk) => {
            let kept = opened_again(alloc, disk)?;
            let lost = kept.registers() != NEW;
            Ok(Run {
                kept,
                stops: 1,
                lost,
            })
        }
    }
}

// The replica behind a request. Where the disk stops, it is opened again, and the request is handled once more.
fn goes_on(
    alloc: Global,
    run: Run,
    asked: Asked,
    acknowledged: Registers,
) -> Result<Run, AllocError> {
    let request = request_of(alloc, asked)?;
    let Run { kept, stops, lost } = run;
    match kept.handle(&request) {
        Ok(kept) => Ok(Run { kept, stops, lost }),
        Err(disk) => {
            let kept = opened_again(alloc, disk)?;
            let lost = lost || !is_front(acknowledged, asked, kept.registers());
            match kept.handle(&request) {
                Ok(kept) => Ok(Run {
                    kept,
                    stops: stops.saturating_add(1),
                    lost,
                }),
                Err(_) => Err(AllocError),
            }
        }
    }
}

// How often the run stops on a disk that stops at the call of this number; none where at some moment the replica
// does not hold what was acknowledged.
fn stops_of(alloc: Global, stop: u32) -> Result<Option<u32>, AllocError> {
    let mut run = begun(alloc, stop)?;
    let mut acknowledged = NEW;
    let requests = run_of_requests();
    for asked in &requests {
        run = goes_on(alloc, run, *asked, acknowledged)?;
        acknowledged = behind(acknowledged, *asked);
        if run.lost || run.kept.registers() != acknowledged {
            return Ok(None);
        }
    }
    Ok(Some(run.stops))
}

#[test]
fn a_stop_at_any_call_loses_nothing_that_was_acknowledged(rt: HostRuntime) -> Result<(), Fail> {
    for stop in 0..CALLS + 3 {
        let stops = if 1 <= stop && stop <= CALLS { 1 } else { 0 };
        assert_eq!(rt; stops_of(rt.alloc(), stop)?, Some(stops), "at {stop}");
    }
    Ok(())
}
