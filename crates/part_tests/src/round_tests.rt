//! That ample memory is enough for a round of dependencies.

use carstamps::Carstamp;
use causal_context::Dep;
use gryff_quorum::{DepLists, RegSession};
use rss_names::{Key, Seq, ServiceId};
use rss_tables::RegWork;
use rss_wire::Outbox;
use std::test::Fail;

#[test]
fn sends_dependencies_to_each_replica(rt: HostRuntime) -> Result<(), Fail> {
    let alloc = rt.alloc();
    let service = ServiceId::Reg(1);
    let dep = Dep {
        key: Key { service, index: 0 },
        value: 5,
        stamp: Carstamp::ZERO,
        writer: 1,
    };
    let deps = Seq::from_vec(Vec::from_slice(alloc, &[dep])?);
    let session = RegSession::new(2, RegWork::Fix(deps), service, 3, [false; 7]);
    let mut spare = DepLists::new(alloc);
    let mut out = Outbox::new(alloc);
    session.make_room(&mut spare, &mut out)?;
    session.start(&mut spare, &mut out);
    assert_eq!(rt; out.len(), 3);
    Ok(())
}
