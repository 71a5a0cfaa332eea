//! The messages and the keys that wait at a node, as a call of the node goes by them.
//! `make_room` makes room for the messages that are to wait, before the records of the call are written.
//! `keep` puts them when that is done, and takes no memory.
//! `polls` finds the message that a MakeConnection is given, and `take` takes it.
//! - `keys`: which keys wait. `after_call` goes by the records of a call, `fill` by those that a mount finds, and
//!   `due_keys` answers which are due.
#![tactic(auto)]

mod copy;
mod fetch;
mod room;

pub use fetch::{Fetched, Polled, polls, selected, take};
pub use room::{Held, keep, make_room, to_wait};

pub mod keys;
