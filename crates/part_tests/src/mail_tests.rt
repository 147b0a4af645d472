//! The net as a machine calls it.

use rss_names::{Key, ReplicaId, ServiceId, StageId, Target};
use rss_wire::{Envelope, Reply, Request};
use stage_mail::Mail;
use std::alloc::AllocError;
use std::test::Fail;

const X: Key = Key {
    service: ServiceId::Reg(1),
    index: 0,
};

// The number of a message, and 0 where there is none.
fn number_of(envelope: Option<Envelope>) -> u32 {
    match envelope {
        Some(envelope) => envelope.number,
        None => 0,
    }
}

#[test]
fn each_stage_has_its_own_next_message(rt: HostRuntime) -> Result<(), Fail> {
    let first = StageId::new(1).ok_or(AllocError)?;
    let last = StageId::new(16).ok_or(AllocError)?;
    let replica = ReplicaId::new(1).ok_or(AllocError)?;
    let mut mail = Mail::new(rt.alloc());
    mail.make_room(5)?;
    assert_eq!(rt; number_of(mail.due(first)), 0);
    mail.ask(
        1,
        first,
        Target::Replica(X.service, replica),
        Request::Ask { key: X },
    );
    mail.ask(
        2,
        last,
        Target::Replica(X.service, replica),
        Request::Ask { key: X },
    );
    mail.ask(
        1,
        first,
        Target::Replica(X.service, replica),
        Request::Ask { key: X },
    );
    assert_eq!(rt; number_of(mail.due(first)), 1);
    assert_eq!(rt; number_of(mail.due(last)), 2);
    assert!(rt; mail.deliver(2).is_ok());
    mail.answer(2, Reply::Done);
    assert!(rt; mail.lose(3).is_ok());
    assert_eq!(rt; number_of(mail.due(first)), 1);
    assert_eq!(rt; number_of(mail.due(last)), 4);
    assert!(rt; mail.deliver(1).is_ok());
    assert!(rt; mail.again(1).is_ok());
    assert_eq!(rt; number_of(mail.due(first)), 0);
    assert_eq!(rt; mail.pending(), 1);
    assert_eq!(rt; mail.net().pending(), 1);
    Ok(())
}
