//! The keys that wait to be emitted, found by key: timers of `slots`, and the slot of each key beside them. Contracts
//! see `KeyTimers` as one plain list, in the order of the last move.

mod cells;
mod timers;

pub use timers::{KeyTimers, MOST_EMITTED};
