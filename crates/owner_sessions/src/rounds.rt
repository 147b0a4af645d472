//! Rounds over the replicas of a register service, which write into an owner's outbox.

ghost use Rattle.std.specs.Prelude.{◌≡◌, ◌+◌, ◌<◌, ◌≤◌, ◌++◌, length};
ghost use Rattle.rss_tables.specs.Round.{hears};
ghost use Rattle.rss_tables.specs.RegisterSession.{reply_cell, session_after, goes_on as starts_round};
ghost use Rattle.gryff_quorum.specs.Heard.{HasSmallStamps};
ghost use Rattle.rss_machine.specs.Moves.{round_without};
ghost use Rattle.owner_sessions.specs.Rounds.{next_round, goes_to_next};

use gryff_quorum::RegSession;
use rss_names::{ReplicaId, ServiceId, is_same_service};
use rss_tables::RegPhase;
use rss_wire::{Outbox, Reply};

/// Rounds hear a reply of a replica. True exactly where the next round begins: its requests then lie in
/// the outbox. Takes no memory.
#[tactic(auto, using(crate::proofs::Rounding::sends_next))]
pub fn hear_round(rounds: &mut RegSession, from: ReplicaId, reply: &Reply, out: &mut Outbox) -> bool
    requires room { 7 ≤ out.old.room }
    requires small { HasSmallStamps (hears rounds.old.round from (reply_cell reply.now)) }
    ensures after { rounds.new ≡ session_after rounds.old from reply.now }
    ensures anew { result ≡ goes_to_next rounds.old from reply.now }
    ensures sends { out.new.requests ≡ out.old.requests ++ next_round (goes_to_next rounds.old from reply.now) (session_after rounds.old from reply.now) }
    ensures left { out.new.room + length (next_round (goes_to_next rounds.old from reply.now) (session_after rounds.old from reply.now)) ≡ out.old.room }
{
    let before = begins_another(rounds.phase());
    let _ = rounds.on_reply(from, reply, out);
    before && !begins_another(rounds.phase())
}

// Whether another round follows the one of this phase.
fn begins_another(phase: RegPhase) -> bool
    ensures { result ≡ starts_round phase }
{
    match phase {
        RegPhase::Stamping => true,
        RegPhase::Fixing => false,
        RegPhase::Asking => false,
        RegPhase::Storing(_) => false,
        RegPhase::Done(_) => false,
    }
}

/// Rounds go on without a replica, where they are over those of its service.
pub fn cut_round(rounds: &mut RegSession, service: ServiceId, replica: ReplicaId)
    ensures { rounds.new ≡ round_without rounds.old service replica }
{
    if is_same_service(rounds.service(), service) {
        let _ = rounds.cut(replica);
    }
}
