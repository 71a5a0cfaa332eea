//! Why a message is not taken: the kinds of faults that depend on what the node knows, but for want of room.

mod acks;
mod body;
mod sequence;
pub mod verdict;

pub use acks::is_invalid;
pub use sequence::target;
pub use verdict::early_verdict;
