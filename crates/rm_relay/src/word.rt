//! The promise of a relay of three durable nodes, by the protocol alone: what the second one received from the first it
//! forwards to the third, though all three may stop at any device call. Such worlds are played over real nodes above.

pub mod laws;
pub mod station;

pub use station::Station;
