//! What holds of every group and every list of steps.

ghost use Rattle.group_laws.specs.Chosen.{OneIsChosen, ToldAreChosen, AppliedAreTold, StepsKeepGroupsSound, GroupsBeginSound};

/// For every list of group steps at most one request is chosen for a slot.
pub fn one_is_chosen()
    ensures { OneIsChosen }
{}

/// What some member has ever applied to a slot is chosen for it.
pub fn told_are_chosen()
    ensures { ToldAreChosen }
{}

/// What a member has applied are the requests of the first slots, none skipped, and it holds each in
/// its slot.
pub fn applied_are_told()
    ensures { AppliedAreTold }
{}

/// A step that is not refused leads from a sound group to a sound group.
pub fn steps_keep_groups_sound()
    ensures { StepsKeepGroupsSound }
{}

/// A group is sound before its first step.
pub fn groups_begin_sound()
    ensures { GroupsBeginSound }
{}
