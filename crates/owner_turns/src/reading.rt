//! What is asked of an owner: when it goes on by itself, and where it is placed.

ghost use Rattle.std.specs.Prelude.{◌≡◌, ◌+◌, ◌<◌, ◌≤◌, length, get_or};
ghost use Rattle.rss_tables.specs.Lines.{no_line, asleep_on as sleeps_on};
ghost use Rattle.rss_machine.specs.Places.{is_read_work, session_stamp, work_stamp, keyed_stamp, phase_stamp as stamp_of_phase};
ghost use Rattle.rss_machine.specs.Standing.{is_running};
ghost use Rattle.turn_laws.specs.Turns.{lines_in};
ghost use Rattle.owner_turns.specs.Asked.{attempt_under, is_read_under, enabling_in, session_enabling_in, stub_enabling_in, awaited_in, time_at, EnablingIsTold, StubEnablingIsTold};

use crate::owner::Owner;
use carstamps::Carstamp;
use owner_sessions::{Doing, txn};
use rss_machine::OwnerFate;
use rss_names::{Attempt, Key};
use rss_tables::{RegEnd, RegPhase, RegWork};
use rss_wire::Holder;

/// When an owner can go on by itself.
#[derive(Clone, Copy, PartialEq, Eq)]
pub enum OwnerEnabling {
    Never,
    /// In a step whose reading begins above this time.
    After(u64),
    /// Where the coordinator that an asleep line waits for has decided.
    Lines,
    /// Always.
    Always,
}

impl Owner {
    /// When a call or fence statement can go on by itself: behind the time that its works or its
    /// transaction wait for, or where a line can wake.
    pub fn enabling(&self) -> OwnerEnabling
        ensures { result ≡ enabling_in self.now.row }
    {
        match self.works.wait() {
            Some(time) => OwnerEnabling::After(time),
            None => self.session_enabling(),
        }
    }

    // When what is under way can go on by itself.
    #[tactic(auto, using(crate::proofs::Answered::no_enabling))]
    fn session_enabling(&self) -> OwnerEnabling
        ensures { result ≡ session_enabling_in self.now.row.session }
    {
        match &self.doing {
            Doing::Transaction(_, _) => match self.time_waited() {
                Some(time) => OwnerEnabling::After(time),
                None => OwnerEnabling::Lines,
            },
            Doing::Snapshot(_, _) => OwnerEnabling::Lines,
            Doing::Idle => OwnerEnabling::Never,
            Doing::Fixing(_) => OwnerEnabling::Never,
            Doing::Register(_) => OwnerEnabling::Never,
            Doing::Settling => OwnerEnabling::Never,
        }
    }

    /// When a stub can go on by itself: where it has not started, or behind the time that its works wait
    /// for.
    pub fn stub_enabling(&self) -> OwnerEnabling
        ensures { result ≡ stub_enabling_in self.now.row }
    {
        if !self.is_running() {
            return OwnerEnabling::Never;
        }
        if !self.started {
            return OwnerEnabling::Always;
        }
        match self.works.wait() {
            Some(time) => OwnerEnabling::After(time),
            None => OwnerEnabling::Never,
        }
    }

    /// Whether it has neither ended nor been dropped or cut off.
    pub fn is_running(&self) -> bool
        ensures { result ≡ is_running self.now.row.fate }
    {
        match self.fate {
            OwnerFate::Running => true,
            OwnerFate::Ended => false,
            OwnerFate::Dropped => false,
            OwnerFate::CutOff(_) => false,
        }
    }

    /// How many lines its transaction or snapshot has.
    #[tactic(auto, using(crate::proofs::Answered::no_lines))]
    pub fn lines(&self) -> usize
        ensures same { result ≡ length (lines_in self.now.row.session) }
        ensures few { result ≤ 16 }
    {
        match &self.doing {
            Doing::Transaction(_, session) => session.len(),
            Doing::Snapshot(_, session) => session.len(),
            Doing::Idle => 0,
            Doing::Fixing(_) => 0,
            Doing::Register(_) => 0,
            Doing::Settling => 0,
        }
    }

    /// What the line of a place waits for; `None` where it is not asleep.
    #[tactic(auto, using(crate::proofs::Answered::no_lines))]
    pub fn asleep_on(&self, line: usize) -> Option<Holder>
        requires { line < length (lines_in self.now.row.session) }
        ensures { result ≡ sleeps_on (get_or (lines_in self.now.row.session) line no_line).state }
    {
        match &self.doing {
            Doing::Transaction(_, session) => session.asleep_on(line),
            Doing::Snapshot(_, session) => session.asleep_on(line),
            Doing::Idle => None,
            Doing::Fixing(_) => None,
            Doing::Register(_) => None,
            Doing::Settling => None,
        }
    }

    /// The attempt that its first asleep line waits for, if one is asleep.
    #[tactic(auto, using(crate::proofs::Answered::awaits_more))]
    pub fn awaits(&self) -> Option<Attempt>
        ensures { result ≡ awaited_in (lines_in self.now.row.session) }
    {
        for line in 0..self.lines() {
            if let Some(holder) = self.asleep_on(line) {
                return Some(holder.attempt);
            }
        }
        None
    }

    /// The time of a call of a transaction service, where its coordinator keeps this commit time for it.
    #[tactic(auto, using(crate::proofs::Answered::times))]
    pub fn time_of(&self, decided: Option<u64>) -> Option<u64>
        ensures { result ≡ time_at decided self.now.row.session }
    {
        match &self.doing {
            Doing::Transaction(_, session) => {
                if decided.is_some() {
                    return decided;
                }
                if session.has_failed() {
                    session.end()
                } else {
                    None
                }
            }
            Doing::Snapshot(_, session) => session.end(),
            Doing::Idle => None,
            Doing::Fixing(_) => None,
            Doing::Register(_) => None,
            Doing::Settling => None,
        }
    }

    /// The present attempt of its transaction, with the shard that coordinates it; `None` where no
    /// transaction is under way.
    #[tactic(auto, using(crate::proofs::Answered::no_attempts))]
    pub fn attempt(&self) -> Option<Holder>
        ensures { result ≡ attempt_under self.now.row.session }
    {
        match &self.doing {
            Doing::Transaction(called, session) => {
                if session.len() == 0 {
                    return None;
                }
                Some(Holder {
                    attempt: session.attempt(&txn(&self.kind, *called)),
                    coordinator: session.shard(0),
                })
            }
            Doing::Snapshot(_, _) => None,
            Doing::Idle => None,
            Doing::Fixing(_) => None,
            Doing::Register(_) => None,
            Doing::Settling => None,
        }
    }

    /// Whether the rounds of its call read a register.
    #[tactic(auto, using(crate::proofs::Answered::no_reads))]
    pub fn is_read(&self) -> bool
        ensures { result ≡ is_read_under self.now.row.session }
    {
        match &self.doing {
            Doing::Register(rounds) => is_read(rounds.work()),
            Doing::Transaction(_, _) => false,
            Doing::Snapshot(_, _) => false,
            Doing::Idle => false,
            Doing::Fixing(_) => false,
            Doing::Settling => false,
        }
    }

    /// The register and stamp of a register call: of a write once its store was handled, of a read once it
    /// has ended.
    #[tactic(auto, using(crate::proofs::Answered::no_stamps))]
    pub fn stamp(&self) -> Option<(Key, Carstamp)>
        ensures { result ≡ session_stamp self.now.row.session self.now.row.stored }
    {
        match &self.doing {
            Doing::Register(rounds) => stamp_of(rounds.work(), rounds.phase(), self.stored),
            Doing::Idle => None,
            Doing::Fixing(_) => None,
            Doing::Transaction(_, _) => None,
            Doing::Snapshot(_, _) => None,
            Doing::Settling => None,
        }
    }
}

// Whether a work reads a register.
fn is_read(work: &RegWork) -> bool
    ensures { result ≡ is_read_work work.now }
{
    match work {
        RegWork::Read(_) => true,
        RegWork::Write(_, _) => false,
        RegWork::Fix(_) => false,
    }
}

// The register and stamp of a work in a phase.
fn stamp_of(work: &RegWork, phase: RegPhase, stored: bool) -> Option<(Key, Carstamp)>
    ensures { result ≡ work_stamp work.now phase stored }
{
    match work {
        RegWork::Read(key) => keyed(*key, phase_stamp(phase)),
        RegWork::Write(key, _) => {
            if stored {
                keyed(*key, phase_stamp(phase))
            } else {
                None
            }
        }
        RegWork::Fix(_) => None,
    }
}

// A register with a stamp on it.
fn keyed(key: Key, stamp: Option<Carstamp>) -> Option<(Key, Carstamp)>
    ensures { result ≡ keyed_stamp key stamp }
{
    match stamp {
        Some(stamp) => Some((key, stamp)),
        None => None,
    }
}

// The stamp that a register session has taken or read.
fn phase_stamp(phase: RegPhase) -> Option<Carstamp>
    ensures { result ≡ stamp_of_phase phase }
{
    match phase {
        RegPhase::Storing(stamp) => Some(stamp),
        RegPhase::Done(RegEnd::Read(cell, _)) => Some(cell.stamp),
        RegPhase::Done(RegEnd::Written(stamp)) => Some(stamp),
        RegPhase::Done(RegEnd::Fixed) => None,
        RegPhase::Fixing => None,
        RegPhase::Asking => None,
        RegPhase::Stamping => None,
    }
}

/// What `enabling` tells is the tables' enabling.
#[tactic(auto, using(crate::proofs::Answered::enabling_told))]
pub fn enabling_is_told()
    ensures { EnablingIsTold }
{}

/// What `stub_enabling` tells is the tables' enabling.
#[tactic(auto, using(crate::proofs::Answered::stub_enabling_told))]
pub fn stub_enabling_is_told()
    ensures { StubEnablingIsTold }
{}
