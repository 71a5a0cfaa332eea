//! Tests of `node_tables` and of `record_batch`.
//! - `batch_tests`: the bytes of records, and what tables answer to records that don't fit.
//! The other modules make tables of records, and ask them. Tests stand in crates of their own, since a crate with tests
//! is proved a second time with them.
#![tactic(auto)]

pub mod batch_tests;
#[cfg(test)]
mod parts;
#[cfg(test)]
mod readers;
#[cfg(test)]
mod room;
#[cfg(test)]
mod snapshots;
