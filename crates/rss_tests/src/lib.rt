//! Code: tests that cross crates. The library itself is empty.
#![tactic(auto)]

#[cfg(test)]
mod byte_tests;
#[cfg(test)]
mod command_tests;
#[cfg(test)]
mod commands;
#[cfg(test)]
mod file_tests;
#[cfg(test)]
mod run_tests;
#[cfg(test)]
mod serial_tests;
#[cfg(test)]
mod world_tests;
