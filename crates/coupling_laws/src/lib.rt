//! Theory: what a context covers of the calls behind it, through each change of a context.
#![tactic(auto)]

mod laws;
mod views;
mod works;

pub use laws::{
    cleared_context_covers, context_covers_fewer, context_covers_later,
    context_with_a_fence_covers, context_with_a_read_covers, context_with_a_transaction_covers,
    context_with_a_write_covers, copied_context_covers, empty_context_covers,
    entered_register_context_covers, entered_transaction_context_covers, fenced_context_covers,
    joined_contexts_cover, launch_finds_calls_placed, unused_services_have_come,
};
pub use views::{
    before_means_an_early_step, calls_that_came_are_before, views_after_readings_are_views,
    views_grow_with_readings,
};
pub use works::{no_dependency_settles, passed_times_settle, stored_dependencies_settle};
