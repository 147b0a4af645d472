//! Tests: a shard and its parts as they are called. The library itself is empty.
#![tactic(auto)]

#[cfg(test)]
mod lock_tests;
#[cfg(test)]
mod serving_tests;
#[cfg(test)]
mod sifting_tests;
#[cfg(test)]
mod version_tests;
