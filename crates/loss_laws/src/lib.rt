//! Theory: what the steps withhold from owners, over every list of steps that the machine accepts.
#![tactic(auto)]

mod laws;

pub use laws::{
    cut_off_or_nothing_withheld, losses_are_counted, messages_go_to_replicas_of_the_file,
    owners_end_as_something_is_withheld, stage_lines_tell_what_was_withheld,
    the_unavailable_were_withheld, the_withheld_are_unavailable,
};
