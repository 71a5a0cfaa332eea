//! The keys that wait at a node, as its tables tell them: what a batch of records ends, what a mount finds, and what a
//! tick emits. Contracts say each call as what `rm_protocol` makes of the list of those that wait.

mod after;
pub mod laws;
mod mounts;
mod moves;
mod records;
mod touched;
mod waiting;

pub use after::after_call;
pub use mounts::fill;
pub use moves::due_keys;
pub use touched::{Touched, named};
