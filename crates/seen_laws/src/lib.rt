//! Theory: what form the contexts of every run have, and how many dependencies.
#![tactic(auto)]

mod laws;

pub use laws::contexts_have_form;
