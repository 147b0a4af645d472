//! The laws of losses. They hold no code: each is the contract of a function that does nothing.

ghost use Rattle.loss_laws.specs.Laws.{MessagesGoToReplicas, LossesAreCounted, UnavailableWereWithheld, WithheldAreUnavailable, CutOffOrNothingWithheld, OwnersEndAsWithheld, StagesTellWithheld};

/// In every run each message to a replica of a register service is to one of those that the file gives
/// the service, whatever is lost, repeated or killed.
pub fn messages_go_to_replicas_of_the_file()
    ensures { MessagesGoToReplicas }
{}

/// In every run the count that an owner keeps of a target is the number of steps that lost one of its
/// messages with that target while it ran. It holds of each target that has a place of its own in the
/// list of counts: sixteen shards, and seven replicas of each of eight register services. Here and below
/// the file gives one try at least, and replicas to such services alone; and each message with a shard is
/// with such a shard.
pub fn losses_are_counted()
    ensures { LossesAreCounted }
{}

/// In every run an owner that ended cut off from a shard lost at least as many messages with it as the
/// file gives tries, while it ran; and one that ended cut off from a replica lost so many with each of
/// more replicas of that service than a majority can spare. So the steps withheld what it names.
pub fn the_unavailable_were_withheld()
    ensures { UnavailableWereWithheld }
{}

/// In every run an owner that is running has no shard withheld from it, and no quorum of a register
/// service of the file.
pub fn the_withheld_are_unavailable()
    ensures { WithheldAreUnavailable }
{}

/// In every run each owner, whatever became of it, was cut off from a target, or had no shard and no
/// quorum withheld from it while it ran. So the owners that were cut off are those from which the steps
/// withheld something, and no others.
pub fn cut_off_or_nothing_withheld()
    ensures { CutOffOrNothingWithheld }
{}

/// An owner that runs ends cut off exactly in the step in which a shard or a quorum is withheld from it
/// first: before the step nothing was withheld; where the step cuts it off, what is named is withheld
/// now; and where the step does not, nothing is withheld yet.
pub fn owners_end_as_something_is_withheld()
    ensures { OwnersEndAsWithheld }
{}

/// In every run, where a stage is over as unavailable, a call or a fence statement of that stage was cut
/// off from a target that the steps withheld from it; and where its stub has ended unfenced, the stub was
/// cut off from the target that is named, which the steps withheld from the stub.
pub fn stage_lines_tell_what_was_withheld()
    ensures { StagesTellWithheld }
{}
