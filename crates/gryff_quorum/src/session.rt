//! A register session: the rounds of a register call, or a round of dependencies.

ghost use Rattle.std.specs.Prelude.{◌≡◌, ◌+◌, ◌<◌, ◌≤◌, [], ◌++◌, length, false, Some, OnOk, if◌then◌else◌};
ghost use Rattle.rss_tables.specs.Round.{cuts, hears, is_lost, is_agreed, greatest_heard};
ghost use Rattle.rss_tables.specs.RegisterSession.{opening_session, reply_cell as cell_of, first_phase as phase_of, phase_request, requests_from, round_requests, read_end as end_of_read, found_cell, session_after, session_sends, goes_on, phase_progress, phase_end, reached as after_majority};
ghost use Rattle.rss_wire.specs.declared.messages.Request.TheVariants.{Fix};
ghost use Rattle.gryff_quorum.specs.Heard.{HasSmallStamps};
ghost use Rattle.gryff_quorum.specs.Spare.{HasLists, lists_sent, sends_lists};

use crate::dep_lists::DepLists;
use crate::round::Round;
use carstamps::Carstamp;
use causal_context::Dep;
use rss_names::{ReplicaId, ServiceId, Target};
use rss_tables::{RegEnd, RegPhase, RegWork};
use rss_wire::{Outbox, Progress, RegReply, Reply, Request};
use std::alloc::AllocError;
use std::marker::Model;

/// What a replica holds of a register that was never written.
const OPENING: RegReply = RegReply {
    value: 0,
    stamp: Carstamp::ZERO,
    writer: 0,
};

/// The greatest number of replicas of a service, so of requests that a session sends in one step.
const MOST_REPLICAS: usize = 7;

/// The rounds of a read, of a write, or of dependencies over the replicas of one register service.
/// Contracts see it as the tables' session.
pub struct RegSession {
    call: u32,
    work: RegWork,
    service: ServiceId,
    round: Round,
    phase: RegPhase,
}

// Written out, so that a caller who lets a session go sees one call and none of its parts.
impl Drop for RegSession {
    fn drop(self) {
        let RegSession {
            call: _call,
            work: _work,
            service: _service,
            round: _round,
            phase: _phase,
        } = self;
    }
}

impl Model for RegSession {
    ghost use Rattle.std.specs.Prelude.{◌≤◌};
    ghost use Rattle.rss_tables.specs.RegisterSession.{RegSession as SessionView};

    ghost Value = { SessionView };

    ghost view = { λ s.
        record { call = s.call; work = s.work; service = s.service; round = s.round; phase = s.phase } };

    ghost invariant = { λ s. s.round.replicas ≤ 7 };
}

impl RegSession {
    /// The session of a work of this call, over the replicas of a service, of which those are left out
    /// that are cut off, replica number r at place r - 1. Nothing is sent yet.
    pub fn new(
        call: u32,
        work: RegWork,
        service: ServiceId,
        replicas: u8,
        cut: [bool; 7],
    ) -> RegSession
        requires replicas { replicas ≤ 7 }
        ensures { result ≡ opening_session call work service replicas cut }
    {
        let phase = first_phase(&work);
        RegSession {
            call,
            work,
            service,
            round: Round::new(replicas, &cut),
            phase,
        }
    }

    /// Makes room for all that `start` can send. `on_reply` needs the room of the outbox alone.
    pub fn make_room(&self, spare: &mut DepLists, out: &mut Outbox) -> Result<(), AllocError>
        ensures room { OnOk result (7 ≤ out.new.room) }
        ensures room_stays { out.old.room ≤ out.new.room }
        ensures lists { OnOk result (HasLists spare.new self.now.work) }
        ensures same { out.new.requests ≡ out.old.requests }
    {
        out.make_room(MOST_REPLICAS)?;
        match &self.work {
            RegWork::Fix(deps) => spare.make_room(MOST_REPLICAS, deps.len()),
            RegWork::Read(_) | RegWork::Write(_, _) => Ok(()),
        }
    }

    /// Sends the requests of the round under way: called once, before any reply. A round of
    /// dependencies takes a spare list for each request. Takes no memory.
    #[tactic(auto, using(crate::proofs::RoundRequests::few_in_round))]
    pub fn start(&self, spare: &mut DepLists, out: &mut Outbox)
        requires room { 7 ≤ out.old.room }
        requires lists { HasLists spare.old self.now.work }
        ensures sends { out.new.requests ≡ out.old.requests ++ round_requests self.now }
        ensures room { out.new.room + length (round_requests self.now) ≡ out.old.room }
        ensures few { length (round_requests self.now) ≤ 7 }
        ensures lists { spare.new.count + lists_sent self.now.work (length (round_requests self.now)) ≡ spare.old.count }
        ensures width { spare.new.width ≡ spare.old.width }
    {
        match &self.work {
            RegWork::Fix(deps) => match self.phase {
                RegPhase::Fixing => self.send_fixes(deps.as_slice(), spare, out),
                RegPhase::Asking | RegPhase::Stamping | RegPhase::Storing(_) | RegPhase::Done(_) =>
                    {}
            },
            RegWork::Read(_) | RegWork::Write(_, _) => self.send_round(out),
        }
    }

    /// Hears a reply to a request of the round under way. Where a majority has then replied, the next
    /// round is sent, or the session is done. Takes no memory.
    #[tactic(auto, using(crate::proofs::RoundRequests::few_sent))]
    pub fn on_reply(&mut self, from: ReplicaId, r: &Reply, out: &mut Outbox) -> Progress
        requires room { 7 ≤ out.old.room }
        requires small { HasSmallStamps (hears self.old.round from (cell_of r.now)) }
        ensures session { self.new ≡ session_after self.old from r.now }
        ensures sends { out.new.requests ≡ out.old.requests ++ session_sends self.old from r.now }
        ensures room { out.new.room + length (session_sends self.old from r.now) ≡ out.old.room }
        ensures few { length (session_sends self.old from r.now) ≤ 7 }
        ensures progress { result ≡ phase_progress self.new.phase }
    {
        self.round.add(from, reply_cell(r));
        if self.round.reached() {
            self.advance(out);
        }
        self.progress()
    }

    /// Cuts a replica off, so that no later round is sent to it. True exactly where more replicas are
    /// then cut off than a majority can spare.
    pub fn cut(&mut self, r: ReplicaId) -> bool
        ensures lost { result ≡ is_lost self.new.round }
        ensures cuts { self.new ≡ record self.old { round = cuts self.old.round r } }
    {
        self.round.cut(r);
        self.round.lost()
    }

    /// How the session ended: Some exactly where it is done.
    pub fn result(&self) -> Option<RegEnd>
        ensures { result ≡ phase_end self.now.phase }
    {
        match self.phase {
            RegPhase::Done(end) => Some(end),
            RegPhase::Fixing | RegPhase::Asking | RegPhase::Stamping | RegPhase::Storing(_) => None,
        }
    }

    /// How far the session has come.
    pub fn progress(&self) -> Progress
        ensures { result ≡ phase_progress self.now.phase }
    {
        match self.phase {
            RegPhase::Done(_) => Progress::Done,
            RegPhase::Fixing | RegPhase::Asking | RegPhase::Stamping | RegPhase::Storing(_) =>
                Progress::Going,
        }
    }

    /// What it does.
    pub fn work(&self) -> &RegWork
        ensures { result.now ≡ self.now.work }
    {
        &self.work
    }

    /// The round under way.
    pub fn phase(&self) -> RegPhase
        ensures { result ≡ self.now.phase }
    {
        self.phase
    }

    /// The service whose replicas it asks.
    pub fn service(&self) -> ServiceId
        ensures { result ≡ self.now.service }
    {
        self.service
    }

    /// How many replicas the service has.
    pub fn replicas(&self) -> u8
        ensures exact { result ≡ self.now.round.replicas }
        ensures most { result ≤ 7 }
    {
        self.round.replicas()
    }

    // The request of the round under way, where it holds no list.
    fn request(&self) -> Option<Request>
        requires plain { sends_lists self.now.work self.now.phase ≡ false }
        ensures { result ≡ phase_request self.now.call self.now.work self.now.phase }
    {
        match (&self.work, self.phase) {
            (RegWork::Read(key), RegPhase::Asking) => Some(Request::Ask { key: *key }),
            (RegWork::Write(key, _), RegPhase::Stamping) => Some(Request::Stamp { key: *key }),
            (RegWork::Write(key, value), RegPhase::Storing(stamp)) => Some(Request::Store {
                key: *key,
                value: *value,
                stamp,
                writer: self.call,
            }),
            _ => None,
        }
    }

    // Sends the request of the round under way, which holds no list, to each replica that is not cut
    // off, by ascending number.
    #[tactic(auto, using(crate::proofs::RoundRequests::round_steps))]
    fn send_round(&self, out: &mut Outbox)
        requires plain { sends_lists self.now.work self.now.phase ≡ false }
        requires room { 7 ≤ out.old.room }
        ensures sends { out.new.requests ≡ out.old.requests ++ round_requests self.now }
        ensures room { out.new.room + length out.new.requests ≡ out.old.room + length out.old.requests }
    {
        for at in 0..self.round.replicas() {
            if let Some(replica) = ReplicaId::new(at + 1) {
                self.send_to(replica, out);
            }
        }
    }

    // Sends the request of the round under way to a replica that is not cut off.
    fn send_to(&self, replica: ReplicaId, out: &mut Outbox)
        requires plain { sends_lists self.now.work self.now.phase ≡ false }
        requires room { 0 < out.old.room }
        ensures sends { out.new.requests ≡ out.old.requests
            ++ requests_from self.now.service
            (phase_request self.now.call self.now.work self.now.phase) replica self.now.round.cut 1 }
        ensures room { out.new.room + length out.new.requests ≡ out.old.room + length out.old.requests }
        ensures one { out.old.room ≤ out.new.room + 1 }
    {
        if self.round.is_cut(replica) {
            return;
        }
        if let Some(request) = self.request() {
            out.push(Target::Replica(self.service, replica), request);
        }
    }

    // Sends dependencies to each replica that is not cut off, by ascending number.
    #[tactic(auto, using(crate::proofs::RoundRequests::round_steps))]
    fn send_fixes(&self, deps: &[Dep], spare: &mut DepLists, out: &mut Outbox)
        requires room { 7 ≤ out.old.room }
        requires lists { 7 ≤ spare.old.count }
        requires wide { length deps.now ≤ spare.old.width }
        ensures sends { out.new.requests ≡ out.old.requests
            ++ requests_from self.now.service (Some (Fix deps.now)) 1 self.now.round.cut self.now.round.replicas }
        ensures room { out.new.room + length out.new.requests ≡ out.old.room + length out.old.requests }
        ensures lists { spare.new.count + length out.new.requests ≡ spare.old.count + length out.old.requests }
        ensures width { spare.new.width ≡ spare.old.width }
    {
        for at in 0..self.round.replicas() {
            if let Some(replica) = ReplicaId::new(at + 1) {
                self.send_fix_to(replica, deps, spare, out);
            }
        }
    }

    // Sends dependencies to a replica that is not cut off.
    fn send_fix_to(&self, replica: ReplicaId, deps: &[Dep], spare: &mut DepLists, out: &mut Outbox)
        requires room { 0 < out.old.room }
        requires list { 0 < spare.old.count }
        requires wide { length deps.now ≤ spare.old.width }
        ensures sends { out.new.requests ≡ out.old.requests
            ++ requests_from self.now.service (Some (Fix deps.now)) replica self.now.round.cut 1 }
        ensures room { out.new.room + length out.new.requests ≡ out.old.room + length out.old.requests }
        ensures one { out.old.room ≤ out.new.room + 1 }
        ensures lists { spare.new.count + length out.new.requests ≡ spare.old.count + length out.old.requests }
        ensures one_list { spare.old.count ≤ spare.new.count + 1 }
        ensures width { spare.new.width ≡ spare.old.width }
    {
        if self.round.is_cut(replica) {
            return;
        }
        let request = Request::Fix {
            deps: spare.copy(deps),
        };
        out.push(Target::Replica(self.service, replica), request);
    }

    // A majority has replied: begins the next round, or ends.
    fn advance(&mut self, out: &mut Outbox)
        requires room { 7 ≤ out.old.room }
        requires small { HasSmallStamps self.old.round }
        ensures session { self.new ≡ after_majority self.old self.old.phase }
        ensures sends { out.new.requests ≡ out.old.requests
            ++ (if goes_on self.old.phase then round_requests self.new else []) }
        ensures room { out.new.room + length out.new.requests ≡ out.old.room + length out.old.requests }
    {
        match self.phase {
            RegPhase::Fixing => self.phase = RegPhase::Done(RegEnd::Fixed),
            RegPhase::Asking => self.phase = RegPhase::Done(self.read_end()),
            RegPhase::Stamping => {
                let greatest = self.found();
                self.phase = RegPhase::Storing(Carstamp::next(greatest.stamp, self.call));
                self.round = self.round.restarted();
                self.send_round(out);
            }
            RegPhase::Storing(stamp) => self.phase = RegPhase::Done(RegEnd::Written(stamp)),
            RegPhase::Done(_) => {}
        }
    }

    // What was heard with the greatest stamp.
    fn found(&self) -> RegReply
        ensures { result ≡ found_cell (greatest_heard self.now.round) }
    {
        self.round.greatest().unwrap_or(OPENING)
    }

    // How a read ends when a majority has replied: the value read is a dependency where the replicas
    // did not agree.
    fn read_end(&self) -> RegEnd
        ensures { result ≡ end_of_read self.now.work
            (found_cell (greatest_heard self.now.round)) (is_agreed self.now.round) }
    {
        let found = self.found();
        match &self.work {
            RegWork::Read(key) if !self.round.agreed() => {
                let dep = Dep {
                    key: *key,
                    value: found.value,
                    stamp: found.stamp,
                    writer: found.writer,
                };
                RegEnd::Read(found, Some(dep))
            }
            _ => RegEnd::Read(found, None),
        }
    }
}

// The first round of a work.
fn first_phase(work: &RegWork) -> RegPhase
    ensures { result ≡ phase_of work.now }
{
    match work {
        RegWork::Fix(_) => RegPhase::Fixing,
        RegWork::Read(_) => RegPhase::Asking,
        RegWork::Write(_, _) => RegPhase::Stamping,
    }
}

// A reply as a cell. One that shows nothing counts as a register that was never written.
fn reply_cell(r: &Reply) -> RegReply
    ensures { result ≡ cell_of r.now }
{
    match r {
        Reply::Held {
            value,
            stamp,
            writer,
        } => RegReply {
            value: *value,
            stamp: *stamp,
            writer: *writer,
        },
        _ => OPENING,
    }
}
