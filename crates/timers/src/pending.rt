//! The messages that wait at a node for peers that nobody can reach, until they are asked for: WS-MakeConnection 1.1.
//! Contracts see `Pending` as queues of packets, one for an address, and a count of what was dropped, beside the
//! addresses for which room was made.

mod laws;
mod named;
mod pending;
mod queues;

pub use laws::what_waits_is_within_the_limits;
pub use pending::Pending;
