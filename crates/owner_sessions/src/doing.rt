//! What an owner has under way.

ghost use Rattle.std.specs.Prelude.{◌≡◌};
ghost use Rattle.owner_sessions.specs.Parts.{doing_without};

use crate::called::Called;
use crate::rounds::cut_round;
use gryff_quorum::RegSession;
use rss_names::{ReplicaId, ServiceId};

/// What an owner has under way with replicas or shards. The operation of its call, and the attempt that
/// a stub settles, are kept by the owner.
pub enum Doing {
    /// Nothing.
    Idle,
    /// A round that stores dependencies: that of a fence, or the one before a call's own first round.
    Fixing(RegSession),
    /// The rounds of a register call.
    Register(RegSession),
    Transaction(Called, two_phase::Session),
    Snapshot(Called, snapshot_reads::Session),
    /// A stub has its coordinator decide the attempt that it settles.
    Settling,
}

// Written out, so that who lets one go sees one call and none of its parts.
impl Drop for Doing {
    fn drop(self) {
        match self {
            Doing::Idle => {}
            Doing::Fixing(_rounds) => {}
            Doing::Register(_rounds) => {}
            Doing::Transaction(_called, _session) => {}
            Doing::Snapshot(_called, _session) => {}
            Doing::Settling => {}
        }
    }
}

impl Doing {
    /// The round under way goes on without a replica, where it is one of this service.
    pub fn cut(&mut self, service: ServiceId, replica: ReplicaId)
        ensures { self.new ≡ doing_without self.old service replica }
    {
        match self {
            Doing::Fixing(rounds) => cut_round(rounds, service, replica),
            Doing::Register(rounds) => cut_round(rounds, service, replica),
            Doing::Idle => {}
            Doing::Transaction(_, _) => {}
            Doing::Snapshot(_, _) => {}
            Doing::Settling => {}
        }
    }
}
