//! Tests: the registry of services with boxes that a caller hands in. The library itself is empty.
#![tactic(auto)]

#[cfg(test)]
mod boxes_tests;
