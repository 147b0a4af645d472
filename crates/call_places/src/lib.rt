//! Code: the keys by which placed calls are ordered, read from a machine.
#![tactic(auto)]

ghost use Rattle.std.specs.Prelude.{◌≡◌, ◌+◌, ◌<◌, ◌^◌, length, None};
ghost use Rattle.owner_turns.specs.Asked.{is_read_under};
ghost use Rattle.place_facts.specs.Facts.{PlaceFacts};
ghost use Rattle.rss_machine.specs.Places.{session_key, session_stamp, register_key, effect_step as effect_at};
ghost use Rattle.rss_machine.specs.State.{owner_at};
ghost use Rattle.rss_machine.specs.Times.{marked_step};
ghost use Rattle.call_places.specs.Decided.{decided_for, CoordinatorThere};
ghost use Rattle.world_machine.specs.Machine.{state_of};

use carstamps::Carstamp;
use owner_turns::Owner;
use rss_machine::{PlaceKey, PlacePart};
use rss_names::{CallId, Key};
use step_times::step_of_time;
use world_machine::Machine;

/// The key of a call, and `None` exactly where it is not placed: a write is placed once some replica has
/// handled its store, a read or a snapshot once it has ended, and a transaction once its coordinator has
/// decided its commit or its guard has failed.
#[tactic(auto, using(crate::proofs::Keyed::stamped, crate::proofs::Keyed::keyed_nowhere))]
pub fn place_key(m: &Machine, call: CallId) -> Option<PlaceKey>
    requires facts { PlaceFacts (state_of m.now) }
    requires few { length m.now.clock.moments.items + 1 < 2 ^ 32 }
    requires steps { m.now.clock.steps + 1 < 2 ^ 32 }
    ensures { result ≡ session_key (state_of m.now) call (owner_at (state_of m.now) call).session }
{
    let owner = m.owner(call.number())?;
    match owner.stamp() {
        Some((register, stamp)) => Some(register_place(m, call, owner, register, stamp)),
        None => timed_place(m, call, owner),
    }
}

// The key of a call of a stamp on a register.
fn register_place(
    m: &Machine,
    call: CallId,
    owner: &Owner,
    register: Key,
    stamp: Carstamp,
) -> PlaceKey
    requires own { owner.now.row ≡ owner_at (state_of m.now) call }
    requires steps { m.now.clock.steps + 1 < 2 ^ 32 }
    ensures { result ≡ register_key (state_of m.now) call (is_read_under owner.now.row.session) (register, stamp) }
{
    let reads = owner.is_read();
    PlaceKey {
        step: effect_step(
            reads,
            stamp_step(m, register, stamp),
            owner.dates().launched,
        ),
        part: PlacePart::Register {
            register: register.index,
            stamp,
            reads,
            call: call.number(),
        },
    }
}

// The step in which a call takes effect: that of its stamp, and for a read not before its own round.
fn effect_step(reads: bool, stamp_step: u32, round_step: u32) -> u32
    ensures { result ≡ effect_at reads stamp_step round_step }
{
    if reads {
        stamp_step.max(round_step)
    } else {
        stamp_step
    }
}

// The step of a stamp on a register: 0 for an opening value, and past the last step where no majority
// holds the stamp yet.
fn stamp_step(m: &Machine, register: Key, stamp: Carstamp) -> u32
    requires steps { m.now.clock.steps + 1 < 2 ^ 32 }
    ensures { result ≡ marked_step (state_of m.now) register stamp }
{
    if stamp.is_above(Carstamp::ZERO) {
        m.stores
            .majority_step(register, stamp)
            .unwrap_or(m.steps() + 1)
    } else {
        0
    }
}

// The key of a call of a transaction service, by its time.
#[tactic(auto, using(crate::proofs::Keyed::timed))]
fn timed_place(m: &Machine, call: CallId, owner: &Owner) -> Option<PlaceKey>
    requires facts { PlaceFacts (state_of m.now) }
    requires own { owner.now.row ≡ owner_at (state_of m.now) call }
    requires unstamped { session_stamp owner.now.row.session owner.now.row.stored ≡ None }
    requires few { length m.now.clock.moments.items + 1 < 2 ^ 32 }
    ensures { result ≡ session_key (state_of m.now) call owner.now.row.session }
{
    let decided = decided(m, owner);
    let time = owner.time_of(decided)?;
    Some(PlaceKey {
        step: step_of_time(m.clock.moments.as_slice(), time),
        part: PlacePart::Txn {
            time,
            reads: decided.is_none(),
            call: call.number(),
        },
    })
}

// The commit time that the coordinator of a call's transaction keeps for its present attempt.
fn decided(m: &Machine, owner: &Owner) -> Option<u64>
    requires there { CoordinatorThere (state_of m.now) owner.now.row.session }
    ensures { result ≡ decided_for (state_of m.now) owner.now.row.session }
{
    let holder = owner.attempt()?;
    m.stores.time_of(holder.coordinator, holder.attempt)
}
