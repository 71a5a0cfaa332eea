//! The keys that wait to be emitted, in seven classes of growing delay, each in the order of the last move. Contracts
//! see `Timers` as one plain list of entries, in the order of the last move; a slot stays that of its key through every
//! move.

mod laws;
mod table;
mod timers;

pub use laws::{due_is_seen_by_class, live_is_waiting, one_entry_moves};
pub use timers::{Key, Timers};
