//! How many requests each stage has sent to each target.

ghost use Rattle.std.specs.Prelude.{◌≡◌, ◌+◌, ◌-◌, ◌≤◌, ◌<◌, ◌^◌, Some};
ghost use Rattle.std.specs.HashMap.{spare, Updates};
ghost use Rattle.rss_wire.specs.Line.{shard_line, replica_line, line_between, same_line, counted};

use rss_names::{ReplicaId, ServiceId, ShardId, StageId, Target};
use std::collections::HashMap;

/// A stage and a target that it sends requests to, as numbers. The kind is 0 for a shard, 1 for a
/// replica of a transaction service and 2 for one of a register service. A shard has service 0.
#[derive(Clone, Copy, PartialEq, Eq, Hash)]
pub struct Line {
    pub stage: u8,
    pub kind: u8,
    pub service: u8,
    pub number: u8,
}

fn shard_line(stage: u8, shard: ShardId) -> Line
    ensures { result ≡ shard_line stage shard }
{
    let number = shard.number();
    Line {
        stage,
        kind: 0,
        service: 0,
        number,
    }
}

fn replica_line(stage: u8, service: ServiceId, replica: ReplicaId) -> Line
    ensures { result ≡ replica_line stage replica service }
{
    let number = replica.number();
    match service {
        ServiceId::Txn(service) => Line {
            stage,
            kind: 1,
            service,
            number,
        },
        ServiceId::Reg(service) => Line {
            stage,
            kind: 2,
            service,
            number,
        },
    }
}

#[tactic(auto, unfolding(crate::specs::Line::line_between))]
fn line_between(stage: StageId, target: Target) -> Line
    ensures { result ≡ line_between stage target }
{
    let stage = stage.number();
    match target {
        Target::Shard(shard) => shard_line(stage, shard),
        Target::Replica(service, replica) => replica_line(stage, service, replica),
    }
}

/// How many requests are counted on the line.
fn count_of(counts: &HashMap<Line, u32>, line: Line) -> u32
    ensures { result ≡ counted counts.now line }
{
    match counts.get(&line) {
        Some(count) => *count,
        None => 0,
    }
}

/// Counts one more request of the stage to the target, and gives its ordinal. Takes no memory.
pub fn count_one(counts: &mut HashMap<Line, u32>, stage: StageId, target: Target) -> u32
    requires room { 0 < spare counts.old }
    requires few { counted counts.old (line_between stage target) < 2 ^ 32 - 1 }
    ensures ordinal { result ≡ counted counts.old (line_between stage target) + 1 }
    ensures counted { Updates same_line counts.old counts.new (line_between stage target) (Some result) }
    ensures spare { spare counts.old ≤ spare counts.new + 1 }
{
    let line = line_between(stage, target);
    let ordinal = count_of(counts, line) + 1;
    let inserted: Result<_, _> = counts.insert(line, ordinal);
    inserted.unwrap();
    ordinal
}
