//! What holds of the records of a node, and how the code says what a call comes to.
//! - `laws`: each call keeps the records those of a node, and all that a node says may be written and is read back.
//! - `sizes`: how many bytes a batch of records takes, `batch_len`.
//! - `snapshots`: laws alone: a snapshot of a node's records is accepted when the node is mounted.
//! - `answers`: what a call comes to, `Answer`: whether it was done, the records that it adds, and what is said then.
#![tactic(auto)]

pub mod answers;
pub mod laws;
pub mod sizes;
pub mod snapshots;
