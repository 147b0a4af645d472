//! Owners of messages: their losses, and the fences that they go through.

use carstamps::Carstamp;
use causal_context::{Context, Dep};
use owner_turns::Owner;
use rss_names::{Key, ReplicaId, ServiceId, StageId, Target};
use session_stub::{Next, Plan, Works};
use std::alloc::AllocError;
use std::test::Fail;
use truetime::Interval;

const X: Key = Key {
    service: ServiceId::Reg(1),
    index: 0,
};

#[test]
fn a_target_is_cut_off_at_the_last_try(rt: HostRuntime) -> Result<(), Fail> {
    let alloc = rt.alloc();
    let stage = StageId::new(1).ok_or(AllocError)?;
    let replica = ReplicaId::new(2).ok_or(AllocError)?;
    let mut owner = Owner::stub(alloc, stage, None, Context::empty(alloc), 4);
    let first = owner.count_loss(Target::Replica(X.service, replica), 2);
    let second = owner.count_loss(Target::Replica(X.service, replica), 2);
    let losses = owner.losses_of(Target::Replica(X.service, replica));
    let lost_of_three = owner.quorum_lost(2, X.service, 3);
    let lost_of_one = owner.quorum_lost(2, X.service, 1);
    assert_eq!(rt; (first, second), (false, true));
    assert_eq!(rt; losses, 2);
    assert_eq!(rt; (lost_of_three, lost_of_one), (false, true));
    Ok(())
}

#[test]
fn a_call_ends_its_round_of_dependencies(rt: HostRuntime) -> Result<(), Fail> {
    let alloc = rt.alloc();
    let mut seen = Context::empty(alloc);
    seen.reserve(1)?;
    let dep = Dep {
        key: X,
        value: 5,
        stamp: Carstamp::ZERO,
        writer: 1,
    };
    seen.after_read(X.service, Some(dep));
    let plan = Plan::for_service(alloc, &seen, ServiceId::Txn(1))?;
    let mut works = Works::planned(seen, plan);
    let at = Interval::new(10, 14).ok_or(AllocError)?;
    assert!(rt; matches!(works.pass(at), Next::Fix(ServiceId::Reg(1))));
    assert_eq!(rt; works.copy().deps().len(), 1);
    works.end_first();
    assert!(rt; matches!(works.pass(at), Next::Over));
    assert_eq!(rt; works.copy().deps().len(), 0);
    assert_eq!(rt; works.enters(), true);
    Ok(())
}

#[test]
fn a_fence_waits_until_its_time_has_passed(rt: HostRuntime) -> Result<(), Fail> {
    let alloc = rt.alloc();
    let mut seen = Context::empty(alloc);
    seen.after_txn(ServiceId::Txn(1), 20);
    let plan = Plan::all(alloc, &seen)?;
    let mut works = Works::planned(seen, plan);
    let early = Interval::new(20, 24).ok_or(AllocError)?;
    let late = Interval::new(21, 25).ok_or(AllocError)?;
    assert!(rt; matches!(works.pass(early), Next::Waits(20)));
    assert_eq!(rt; works.wait(), Some(20));
    assert!(rt; matches!(works.pass(late), Next::Over));
    assert_eq!(rt; works.enters(), false);
    Ok(())
}
