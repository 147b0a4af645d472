//! What members send to each other.

use rss_names::Seq;

/// A ballot: its round, and the member that leads by it. Ballots are ordered by round and then by
/// member; round 0 is before every ballot.
#[derive(Clone, Copy, Debug, PartialEq, Eq)]
pub struct Ballot {
    pub round: u32,
    pub member: u8,
}

/// What a slot of the log holds: a request's number, and the ballot under which it was put there.
#[derive(Clone, Copy, Debug, PartialEq, Eq)]
pub struct Slot {
    pub ballot: Ballot,
    pub request: u32,
}

/// What a message says.
#[derive(Drop)]
pub enum Body {
    /// A member wants to lead by this ballot.
    Seek(Ballot),
    /// A member promises the ballot, and tells all its slots.
    Vow(Ballot, Seq<Slot>),
    /// The leader of the ballot puts a request into a slot.
    Put(Ballot, u32, u32),
    /// A member has it there.
    Kept(Ballot, u32),
    /// The leader of the ballot has applied the slot.
    Learn(Ballot, u32),
}
