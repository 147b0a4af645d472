//! The laws of all that the code of a step needs. They hold no code: each is the contract of a function that
//! does nothing.

ghost use Rattle.run_laws.specs.Facts.{RunsKeepAll};
ghost use Rattle.run_laws.specs.Laws.{ActsFindTimesPassed, WakingLinesSleep, WorksFitFiles};
ghost use Rattle.world_laws.specs.Ready.{RunsAreReady};

/// In every run of a file that is sound, whose readings begin no later than they end and end below their
/// limit: an owner has sixteen fences left at most, of services numbered from 1 to 8; no more than sixteen
/// fences of a service were planned for each step; and what is depended on are registers of the file, of
/// each one dependency at most, in the context of each stage and the copy of each owner.
pub fn works_fit_files()
    ensures { WorksFitFiles }
{}

/// In every such run whose steps name stages by their numbers from 1: sizes, stamps, times, messages,
/// links, stubs, operations and works are what the code of a step needs them to be.
pub fn runs_are_ready()
    ensures { RunsAreReady }
{}

/// In every such run: all of that; contexts have their orders, those of owners that are over too; shards,
/// locks and lines name shards of the file; each reply is one to its request; whom a line waits for is a
/// call, and where it sleeps, at a shard that is there; sessions are with seven replicas, or on sixteen
/// shards at most; the keys of a snapshot and of a transaction are of one service, each once in a list; a
/// stage that lives stands at the depth of the blocks that are open, and has fewer than four open where it
/// comes to a statement that opens one; and a fence statement that is under way is the next of its stage.
pub fn runs_keep_all()
    ensures { RunsKeepAll }
{}

/// Whatever the state: of the lines of a session the one that wakes sleeps.
pub fn waking_lines_sleep()
    ensures { WakingLinesSleep }
{}

/// And in an act that is allowed the time that an owner waits for, with its works or as a committed
/// transaction, is below the beginning of the reading.
pub fn acts_find_times_passed()
    ensures { ActsFindTimesPassed }
{}
