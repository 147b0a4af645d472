//! A round: which replicas of a register service have replied, and with what.

ghost use Rattle.std.specs.Prelude.{◌≡◌, ◌-◌, ◌*◌, ◌<◌, ◌≤◌, ◌↔◌, IsTrue, false, get_or, not};
ghost use Rattle.rss_tables.specs.Round.{opening_round, was_heard, hears, cuts, is_reached, is_lost, greatest_heard, is_agreed, count_heard, count_cut, greatest_after, greater_cell, all_agree};
ghost use Rattle.gryff_quorum.specs.Heard.{IsGreatest, HaveOneStamp};

use rss_names::ReplicaId;
use rss_wire::RegReply;
use std::marker::Model;

/// A round over the replicas of a register service. Contracts see it as the tables' round.
#[derive(Clone, Copy)]
pub struct Round {
    replicas: u8,
    cut: [bool; 7],
    heard: [Option<RegReply>; 7],
}

impl Model for Round {
    ghost use Rattle.rss_tables.specs.Round.{Round as RoundView};

    ghost Value = { RoundView };

    ghost view = { λ r. record { replicas = r.replicas; cut = r.cut; heard = r.heard } };

    ghost inverse = { λ r. record { replicas = r.replicas; cut = r.cut; heard = r.heard } };
}

impl Round {
    /// A round over this many replicas, of which those are left out that are cut off, replica number
    /// r at place r - 1. Nobody was heard yet.
    pub fn new(replicas: u8, cut: &[bool; 7]) -> Round
        ensures { result ≡ opening_round replicas cut.now }
    {
        Round {
            replicas,
            cut: *cut,
            heard: [None; 7],
        }
    }

    /// The same replicas and cuts, of which nobody was heard yet.
    pub fn restarted(&self) -> Round
        ensures { result ≡ opening_round self.now.replicas self.now.cut }
    {
        Round::new(self.replicas, &self.cut)
    }

    /// Hears a replica. False exactly where it was heard before in this round: then nothing changes.
    pub fn add(&mut self, from: ReplicaId, r: RegReply) -> bool
        ensures new { result ≡ not (was_heard self.old from) }
        ensures hears { self.new ≡ hears self.old from r }
    {
        let at = (from.number() - 1) as usize;
        if self.heard[at].is_some() {
            return false;
        }
        self.heard[at] = Some(r);
        true
    }

    /// Cuts a replica off. What was heard of it stays heard.
    pub fn cut(&mut self, r: ReplicaId)
        ensures { self.new ≡ cuts self.old r }
    {
        self.cut[(r.number() - 1) as usize] = true;
    }

    /// How many replicas the service has.
    pub fn replicas(&self) -> u8
        ensures { result ≡ self.now.replicas }
    {
        self.replicas
    }

    /// Whether a replica is cut off.
    pub fn is_cut(&self, r: ReplicaId) -> bool
        ensures { result ≡ get_or self.now.cut (r - 1) false }
    {
        self.cut[(r.number() - 1) as usize]
    }

    /// Whether a majority was heard.
    pub fn reached(&self) -> bool
        ensures exact { result ≡ is_reached self.now }
        ensures majority { IsTrue result ↔ (self.now.replicas < 2 * count_heard self.now.heard) }
    {
        number_heard(&self.heard) > self.replicas / 2
    }

    /// Whether more replicas are cut off than a majority can spare.
    pub fn lost(&self) -> bool
        ensures exact { result ≡ is_lost self.now }
        ensures no_majority { 0 < self.now.replicas →
            (IsTrue result ↔ (2 * (self.now.replicas - count_cut self.now.cut) ≤ self.now.replicas)) }
    {
        let majority = self.replicas / 2 + 1;
        number_cut(&self.cut) > self.replicas.saturating_sub(majority)
    }

    /// What was heard with the greatest stamp, of the least replica at equal stamps. None exactly
    /// where nobody was heard.
    #[tactic(auto, using(crate::proofs::GreatestHeard::greatest_is_greatest))]
    pub fn greatest(&self) -> Option<RegReply>
        ensures exact { result ≡ greatest_heard self.now }
        ensures greatest { IsGreatest self.now.heard result }
    {
        greatest_of(&self.heard)
    }

    /// Whether all stamps heard are equal.
    #[tactic(auto, using(crate::proofs::OneStamp::agreement))]
    pub fn agreed(&self) -> bool
        ensures exact { result ≡ is_agreed self.now }
        ensures one_stamp { IsTrue result ↔ HaveOneStamp self.now.heard }
    {
        match self.greatest() {
            Some(cell) => agree(cell, &self.heard),
            None => true,
        }
    }
}

// How many were heard.
fn number_heard(heard: &[Option<RegReply>; 7]) -> u8
    ensures { result ≡ count_heard heard.now }
{
    let mut number = 0;
    for reply in heard {
        if reply.is_some() {
            number += 1;
        }
    }
    number
}

// How many are cut off.
fn number_cut(cut: &[bool; 7]) -> u8
    ensures { result ≡ count_cut cut.now }
{
    let mut number = 0;
    for is_cut in cut {
        if *is_cut {
            number += 1;
        }
    }
    number
}

// What was heard with the greatest stamp.
fn greatest_of(heard: &[Option<RegReply>; 7]) -> Option<RegReply>
    ensures { result ≡ greatest_after None heard.now }
{
    let mut best: Option<RegReply> = None;
    for reply in heard {
        if let Some(cell) = reply {
            best = Some(greater(best, *cell));
        }
    }
    best
}

// Of two cells the second only where its stamp is greater.
fn greater(best: Option<RegReply>, cell: RegReply) -> RegReply
    ensures { result ≡ greater_cell best cell }
{
    match best {
        Some(best) if !cell.stamp.is_above(best.stamp) => best,
        _ => cell,
    }
}

// Whether each cell heard has the stamp of this one.
fn agree(cell: RegReply, heard: &[Option<RegReply>; 7]) -> bool
    ensures { result ≡ all_agree cell heard.now }
{
    for reply in heard {
        if let Some(other) = reply
            && other.stamp != cell.stamp
        {
            return false;
        }
    }
    true
}
