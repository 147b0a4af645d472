//! Tests: the plain functions of the model as they are called. The library itself is empty.
#![tactic(auto)]

#[cfg(test)]
mod orders;
#[cfg(test)]
mod scripts;
#[cfg(test)]
mod telling;
