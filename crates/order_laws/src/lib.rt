//! Theory: what makes an order of calls regular, told of any history.
#![tactic(auto)]

mod behind;
mod legal;
mod regular;
mod sorted;

pub use behind::{behind_by_one_pass, messages_lead_to_what_is_behind, one_pass_goes_on};
pub use legal::{
    legal_by_last_writers, legal_by_sets_of_keys, legal_orders_show_last_writers, legal_set_by_set,
};
pub use regular::{
    causality_follows_its_generating_pairs, regular_from_its_parts,
    writers_stand_before_their_readers,
};
pub use sorted::{SortKey, regular_by_keys, sorted_calls_stand_as_their_keys};
