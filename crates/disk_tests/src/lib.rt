//! Tests: a replica on a disk that stops at each of its calls. The library itself is empty.
#![tactic(auto)]

#[cfg(test)]
mod kept;
#[cfg(test)]
mod plain;
#[cfg(test)]
mod stop_tests;
