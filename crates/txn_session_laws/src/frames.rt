//! The laws of what is under way with shards. They hold no code: each is the contract of a function that does nothing.

ghost use Rattle.txn_session_laws.specs.FrameLaws.{AnswersAreHeard, FramesAreKept, FramesAtTheStart, FramesTick, NoneStaysFirst, NoneFirstAtTheStart, NoneTicks, WhatIsAwaitedIsKept, NothingIsAwaitedAtTheStart, WhatIsAwaitedTicks, LedStays, LedAtTheStart, LedTicks, UnderWayIsKept, UnderWayAtTheStart, UnderWayTicks};

/// Whatever a transaction, a snapshot or a stub hears is a reply to what it awaits: the line that hears it
/// is that of the slot, and the reply is one that a shard gives to the request.
pub fn answers_are_heard()
    ensures { AnswersAreHeard }
{}

/// In a file whose scripts name keys of the file, transactions and snapshots keep their operations, their
/// lines and their least times, whatever happens, and each stub settles an attempt of a transaction.
pub fn frames_are_kept()
    ensures keeps { FramesAreKept }
    ensures begins { FramesAtTheStart }
    ensures counts { FramesTick }
{}

/// No call and no stub has the number 0.
pub fn no_call_has_the_number_of_none()
    ensures keeps { NoneStaysFirst }
    ensures begins { NoneFirstAtTheStart }
    ensures counts { NoneTicks }
{}

/// Each current exchange of a transaction, a snapshot or a stub is of the request whose reply the line of its
/// slot awaits, whatever happens.
pub fn what_is_awaited_is_kept()
    ensures keeps { WhatIsAwaitedIsKept }
    ensures begins { NothingIsAwaitedAtTheStart }
    ensures counts { WhatIsAwaitedTicks }
{}

/// Where a transaction asks its coordinator alone, the coordinator's line awaits and the others are dropped.
pub fn the_coordinator_alone_is_asked()
    ensures keeps { LedStays }
    ensures begins { LedAtTheStart }
    ensures counts { LedTicks }
{}

/// All of these hold together from the start on, of a file whose scripts name keys of the file.
pub fn what_is_under_way_is_kept()
    ensures keeps { UnderWayIsKept }
    ensures begins { UnderWayAtTheStart }
    ensures counts { UnderWayTicks }
{}
