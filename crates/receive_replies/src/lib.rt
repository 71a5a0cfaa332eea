//! What a node says to a message, once its records are there, and why a message is not taken.
//! `said` answers the responses and the acknowledgements. `fault_block` answers the block that a fault carries.
//! - `verdict`: `early_verdict` finds the kind of the fault that a message gets, as far as the node's records tell it.
#![tactic(auto)]

mod acks;
pub mod block;
pub mod reply;
mod responses;

pub use acks::acks_to;
pub use block::{block_of, fault_block};
pub use reply::said;
pub use responses::home;

pub mod verdict;
