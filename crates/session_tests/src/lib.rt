//! Tests: sessions of transactions and snapshots as they hear their shards. The library itself is empty.
#![tactic(auto)]

#[cfg(test)]
mod homes;
#[cfg(test)]
mod sent;
#[cfg(test)]
mod snapshot_tests;
#[cfg(test)]
mod txn_tests;
