//! The laws of runs. They hold no code: each is the contract of a function that does nothing.

ghost use Rattle.world_laws.specs.Laws.{RunsGoOn, RunsAreCounted, LogsGrow, ReadingsAreConsistent, MomentsAreTrue, TimesHaveSteps, StepsOfTimesStay, NothingChangesBack, RepliesFit, RequestsAreProper, StoresAreOwn, RegistersAreTheFiles, MarksTellSteps, MarksAscend, StagesOwnCalls, HistoryTellsCalls, DatesStandInOrder, CallsAreScripted, OwnersGoOn, WorksArePlanned};

/// A run goes on by every step that is not refused.
#[tactic(auto, using(crate::proofs::Runs::run_more))]
pub fn runs_go_on()
    ensures { RunsGoOn }
{}

/// A run counts its steps, and has no more of them than the file allows.
#[tactic(auto, using(crate::proofs::Clock::run_counted))]
pub fn runs_are_counted()
    ensures { RunsAreCounted }
{}

/// A log with one more step has the steps of the log and then that one.
#[tactic(auto, using(crate::proofs::Runs::steps_grow))]
pub fn logs_grow()
    ensures { LogsGrow }
{}

/// Where each reading begins no later than it ends, the readings of every run are consistent.
#[tactic(auto, using(crate::proofs::Readings::readings_consistent))]
pub fn readings_are_consistent()
    ensures { ReadingsAreConsistent }
{}

/// The moment of the state that a run leads to is the true moment after the readings of its steps.
#[tactic(auto, using(crate::proofs::Readings::moment_run, crate::proofs::Readings::moment_true))]
pub fn moments_are_true()
    ensures { MomentsAreTrue }
{}

/// The step of a time, which is the first whose true moment is above it, is a step of the run or one
/// more than their number, and a greater time has no earlier step.
#[tactic(auto, using(crate::proofs::StepsOfTimes::steps_rise))]
pub fn times_have_steps()
    ensures { TimesHaveSteps }
{}

/// From one state of a run to a later one: the step of a time has come exactly where the true moment
/// is above the time, and a step that has come stays.
#[tactic(auto, using(crate::proofs::StepsOfTimes::steps_stay))]
pub fn steps_of_times_stay()
    ensures { StepsOfTimesStay }
{}

/// From one state of a run to every later one, whatever is lost, repeated or killed between: the
/// decisions of coordinators are never replaced, the floors of shards and the stamps that replicas
/// hold never fall, and every message keeps its outside and what it says.
pub fn nothing_changes_back()
    ensures { NothingChangesBack }
{}

/// In every run each message has its number and belongs to the exchange of a request that was sent;
/// a reply has its request's owner, stage, target and ordinal, and is one that the target's row
/// gives to that request in some state.
pub fn replies_fit()
    ensures { RepliesFit }
{}

/// In every run a replica is asked about registers of its own service alone.
#[tactic(auto, using(crate::proofs::RequestsProper::proper_run))]
pub fn requests_are_proper()
    ensures { RequestsAreProper }
{}

/// In every run each store that a replica is sent names its owner as the writer, and bears a stamp of
/// its owner.
#[tactic(auto, using(crate::proofs::StoresOwn::own_run))]
pub fn stores_are_own()
    ensures { StoresAreOwn }
{}

/// Where the scripts name registers of the file alone, every register that a replica is asked about, by
/// a call or by a round of dependencies, is one of the file.
pub fn registers_are_the_files()
    ensures { RegistersAreTheFiles }
{}

/// Where the scripts name registers of the file alone, the noted step of a stamp is, for each register
/// of the file, the first step after which a majority of the register's replicas holds that stamp or a
/// greater one.
#[tactic(auto, using(crate::proofs::FileRegisters::marks_tell_all))]
pub fn marks_tell_steps()
    ensures { MarksTellSteps }
{}

/// In every run the notes of a register are of ever greater stamps, none of an earlier step than one
/// before it, and each of a step of the run.
#[tactic(auto, using(crate::proofs::Ascending::marks_ascend))]
pub fn marks_ascend()
    ensures { MarksAscend }
{}

/// In every run what a stage has under way is a call or a fence statement of that stage, which runs, and the
/// stage lives; and each call and fence statement that runs is what its stage has under way.
pub fn stages_own_calls()
    ensures { StagesOwnCalls }
{}

/// In every run the history tells of calls. An owner is a call exactly where the history has begun it, with
/// its operation and its stage; it has ended exactly where its fate says so, with the reply that its rounds
/// or its turns gave, and each call whose rounds are done has. A call begins once, ends once at most, and
/// ends behind its beginning; and where an End stands before the Begin of another call, the one has ended in
/// an earlier step than the other began.
pub fn history_tells_calls()
    ensures { HistoryTellsCalls }
{}

/// In every run an owner begins, enters its service, sends its own first round and is over in this order, as
/// far as it does, and none of it later than the steps made; a call has rounds, a transaction or a snapshot
/// under way only once it has sent its first round; owners that began later have greater numbers; and of two
/// calls or fence statements of one stage the earlier was over in an earlier step than the later began.
pub fn dates_stand_in_order()
    ensures { DatesStandInOrder }
{}

/// In every run each call and each fence statement is one that its stage's script has a statement for, and a
/// stage gets messages only where some script has a statement that hands one over.
pub fn calls_are_scripted()
    ensures { CallsAreScripted }
{}

/// From one state of a run to every later one: an owner stays of its stage and kind, with the step in which it
/// began; and once it is over its fate stays, with what it had under way and the step in which it ended.
pub fn owners_go_on()
    ensures { OwnersGoOn }
{}

/// In every run the works that an owner has left fit its copy of a context, once it has planned them: each
/// service that the copy used last, but the owner's own, has a work among them, and each work is what the copy
/// owes its service, a least time, nothing or dependencies. A call has none of its own service; and where it
/// has rounds, a transaction or a snapshot of its own under way none are left, and its copy used no service but
/// its own last.
pub fn works_are_planned()
    ensures { WorksArePlanned }
{}
