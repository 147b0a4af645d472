//! Losses: how many messages between an owner and each target were lost.

ghost use Rattle.std.specs.Prelude.{◌≡◌, ◌-◌, ◌<◌, ◌≤◌, ◌^◌, get_or};
ghost use Rattle.rss_names.specs.declared.service.Target.TheVariants.{Replica};
ghost use Rattle.rss_tables.specs.Losses.{no_losses, replica_place, target_place, losses_of, one_more_lost, reaches_tries, is_cut, cut_replicas as replicas_cut, is_quorum_lost};
ghost use Rattle.rss_tables.specs.Round.{count_cut};

use rss_names::{ReplicaId, ServiceId, Target};
use std::marker::Model;

/// How many targets an owner can have: 16 shards, and 7 replicas of each of 8 register services.
const TARGETS: usize = 72;

/// How many shards there can be: their places come first.
const SHARDS: usize = 16;

/// How many replicas a register service can have.
const REPLICAS: usize = 7;

/// How many messages between an owner and each of its targets were lost. Contracts see the tables'
/// list of counts, one for each target at its place.
#[derive(Drop)]
pub struct Losses {
    counts: [u32; 72],
}

impl Model for Losses {
    ghost use Rattle.std.specs.Prelude.{ℕ, List};

    ghost Value = { List ℕ };

    ghost view = { λ l. l.counts };
}

impl Losses {
    /// Nothing was lost yet.
    pub fn new() -> Losses
        ensures { result ≡ no_losses }
    {
        Losses {
            counts: [0; TARGETS],
        }
    }

    /// One more message of a target is lost. True exactly where this is the loss that reaches
    /// `tries`. A target that has no place, as a replica of a transaction service, is not counted.
    pub fn add(&mut self, target: Target, tries: u8) -> bool
        requires below { losses_of self.old target < 2 ^ 32 - 1 }
        ensures reaches { result ≡ reaches_tries tries self.old target }
        ensures counts { self.new ≡ one_more_lost self.old target }
    {
        let place = place_of(target);
        let lost = self.count_at(place) + 1;
        if place < TARGETS {
            self.counts[place] = lost;
        }
        lost == tries as u32
    }

    /// How many messages of a target were lost: none of a target that has no place.
    pub fn lost(&self, target: Target) -> u32
        ensures { result ≡ losses_of self.now target }
    {
        self.count_at(place_of(target))
    }

    /// Whether a target is cut off: its losses have reached `tries`.
    pub fn is_cut(&self, target: Target, tries: u8) -> bool
        ensures { result ≡ is_cut tries self.now target }
    {
        tries as u32 <= self.lost(target)
    }

    /// Which replicas of a service are cut off: replica number r at place r - 1.
    pub fn cut_replicas(&self, tries: u8, service: ServiceId) -> [bool; 7]
        ensures { result ≡ replicas_cut tries self.now service }
    {
        [
            self.is_replica_cut(service, 1, tries),
            self.is_replica_cut(service, 2, tries),
            self.is_replica_cut(service, 3, tries),
            self.is_replica_cut(service, 4, tries),
            self.is_replica_cut(service, 5, tries),
            self.is_replica_cut(service, 6, tries),
            self.is_replica_cut(service, 7, tries),
        ]
    }

    /// Whether more of a service's replicas are cut off than a majority can spare.
    pub fn quorum_lost(&self, tries: u8, service: ServiceId, replicas: u8) -> bool
        ensures { result ≡ is_quorum_lost tries self.now service replicas }
    {
        let majority = replicas / 2 + 1;
        number_cut(&self.cut_replicas(tries, service)) > replicas.saturating_sub(majority)
    }

    // The count at a place: 0 beyond the end of the list.
    fn count_at(&self, place: usize) -> u32
        ensures { result ≡ get_or self.now place 0 }
    {
        if place < TARGETS {
            self.counts[place]
        } else {
            0
        }
    }

    // Whether the replica of this number is cut off.
    fn is_replica_cut(&self, service: ServiceId, number: u8, tries: u8) -> bool
        requires low { 1 ≤ number }
        requires high { number ≤ 7 }
        ensures { result ≡ is_cut tries self.now (Replica service number) }
    {
        match ReplicaId::new(number) {
            Some(replica) => self.is_cut(Target::Replica(service, replica), tries),
            None => false,
        }
    }
}

// The place of a target in the list of counts. What has none is at or beyond its end.
fn place_of(target: Target) -> usize
    ensures { result ≡ target_place target }
{
    match target {
        Target::Shard(shard) => (shard.number() - 1) as usize,
        Target::Replica(service, replica) => place_of_replica(service, replica),
    }
}

// The place of a replica. One of a transaction service has none.
fn place_of_replica(service: ServiceId, replica: ReplicaId) -> usize
    ensures { result ≡ replica_place service replica }
{
    match service {
        ServiceId::Reg(number) => {
            let before = number.saturating_sub(1) as usize;
            SHARDS + REPLICAS * before + (replica.number() - 1) as usize
        }
        ServiceId::Txn(_) => TARGETS,
    }
}

// How many are cut off.
fn number_cut(cut: &[bool; 7]) -> u8
    ensures { result ≡ count_cut cut.now }
{
    let mut number = 0;
    for is_cut in cut {
        if *is_cut {
            number += 1;
        }
    }
    number
}
