//! The laws of endings. They hold no code: each is the contract of a function that does nothing.

ghost use Rattle.ending_laws.specs.Laws.{NobodyIsHurt, SerialHasNoStrays, SerialNeverEndsUnfinished};

/// Of a file that is sound the steps of the serial policy do not end unfinished: where no stage has a step,
/// no message is to come, and no act and no stub's step is enabled under any reading.
pub fn serial_never_ends_unfinished()
    ensures { SerialNeverEndsUnfinished }
{}

/// Each step of the serial policy is the turn of a stage.
pub fn serial_has_no_strays()
    ensures { SerialHasNoStrays }
{}

/// Of every file that withholds no message and kills no stage: in every run whose steps are all turns of
/// stages, no stage is over as killed or unavailable, and no owner is cut off from a target.
pub fn nobody_is_hurt()
    ensures { NobodyIsHurt }
{}
