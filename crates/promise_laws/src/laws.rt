//! The promise of a run. It holds no code: it is the contract of a function that does nothing.

ghost use Rattle.world_laws.specs.Promise.{RunsKeepPromise};

/// Every run of the whole machine, over every list of steps that it accepts, keeps what every reported
/// run owes: its readings can hold one true moment; the places of the calls of all services are one
/// regular order for its history; each stage's history is a run of its script; what was cut off was
/// withheld by the steps; and a stage is over as unavailable only where a statement of it was cut off from
/// a target that was withheld. The file is sound, as every file that is read is; each reading begins no
/// later than it ends; and steps name stages by their numbers from 1.
pub fn runs_keep_promise()
    ensures { RunsKeepPromise }
{}
