//! The laws of the shards of runs. They hold no code: each is the contract of a function that does nothing.

ghost use Rattle.txn_laws.specs.Laws.{ShardsAreReached, ShardsServe, RepliesWereGiven, RepliesStayTrue, WhatIsNewWasAsked};

/// In every run each shard is in a state that a shard comes to by requests. So the laws of one shard
/// hold of each shard of each state.
pub fn shards_are_reached()
    ensures { ShardsAreReached }
{}

/// From one state of a run to every later one each shard serves requests that were sent to it, one after
/// the other, each at a reading that does not end before the true moment of the first state.
pub fn shards_serve_what_was_sent()
    ensures { ShardsServe }
{}

/// In every run each reply of a shard was given in a state that the shard had come to, and what the
/// shard keeps now comes of what it kept then. Where the request was sent after an earlier state of the
/// run, it was served at a reading that does not end before the true moment of that state. So what the
/// laws of a shard say of a reply holds now, as far as it stays.
pub fn replies_were_given()
    ensures { RepliesWereGiven }
{}

/// In every run what a shard has replied stays true: who was granted locks holds some or is done with,
/// who was prepared is prepared at the time that was told or is done with, a decision that was told is
/// kept, who has released is done with, and the floor is at least the time of each answered snapshot.
pub fn replies_stay_true()
    ensures { RepliesStayTrue }
{}

/// From one state of a run to every later one: locks that are held, entries that are prepared and
/// commits that are decided in the later one were so in the first, or were asked for by a request that
/// was sent to the shard. Then the prepare time, and the commit's time, is not before the true moment
/// of the first state. So a transaction takes effect after it begins.
pub fn what_is_new_was_asked_for()
    ensures { WhatIsNewWasAsked }
{}
