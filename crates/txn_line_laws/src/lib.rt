//! Theory: the line of each transaction service, over every list of steps that the machine accepts.
#![tactic(auto)]

mod laws;

pub use laws::{
    covered_transactions_stand_before, reads_of_transactions_are_fresh, transactions_are_inside,
    transactions_are_legal, transactions_are_placed, transactions_follow_their_entry,
};
