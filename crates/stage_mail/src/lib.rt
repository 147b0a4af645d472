//! Code: the net with each stage's messages that are still to come in a list of their own.
#![tactic(auto)]

mod lists;
mod mail;
mod numbers;

pub use mail::Mail;
