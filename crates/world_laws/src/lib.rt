//! Theory: what every run of the machine keeps, over every list of steps that it accepts.
#![tactic(auto)]

mod laws;

pub use laws::{
    calls_are_scripted, dates_stand_in_order, history_tells_calls, logs_grow, marks_ascend,
    marks_tell_steps, moments_are_true, nothing_changes_back, owners_go_on,
    readings_are_consistent, registers_are_the_files, replies_fit, requests_are_proper,
    runs_are_counted, runs_go_on, stages_own_calls, steps_of_times_stay, stores_are_own,
    times_have_steps, works_are_planned,
};
