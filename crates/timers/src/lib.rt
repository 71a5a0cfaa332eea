//! What waits at a node: keys that stand for messages, by when they are due, and packets that nobody can deliver.
//! - `links`: lists linked by index in one table of slots, `Links`, with a bound on the steps of each call.
//! - `slots`: keys in seven classes of growing delay, `Timers`; the caller keeps the slot of each key.
//! - `keys`: the same keys, found by sequence and number, `KeyTimers`; the node uses this one.
//! - `pending`: packets for addresses that nobody can reach, `Pending`, until they are polled for.
#![tactic(auto)]

pub mod keys;
pub mod links;
pub mod pending;
pub mod slots;
