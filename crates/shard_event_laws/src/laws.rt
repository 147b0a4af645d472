//! The law of events. It holds no code: it is the contract of a function that does nothing.

ghost use Rattle.shard_event_laws.specs.Steps.{StepsAreEvents};

/// In every run, whose readings begin no later than they end, what a step does to transactions, snapshots
/// and shards is a list of events: one of them hears a reply, wakes, has waited long enough, begins or
/// is asked again; a shard serves a request; a stub settles what its stage left; or nothing of this
/// happens. In each state between them messages are sound, and the step's reading holds the true
/// moment. So what each event keeps holds in every run.
pub fn steps_are_events()
    ensures { StepsAreEvents }
{}
