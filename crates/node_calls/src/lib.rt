//! What a node does when it is asked, and not by a message: `calls` has each call's `Answer`, from the tables.
//! `create`, `send`, `close`, `end` and `consume` add records.
//! `tick` ends sequences that expired, and says again what is due. `ask_ack`, `nack_missing` and `poll` ask the peer,
//! and add no record.
//! The other modules have the work of one call each; `keys` makes a due key the message that it stands for.
#![tactic(auto)]

mod acks;
mod answers;
mod asks;
pub mod calls;
mod consumes;
mod ends;
mod keys;
mod nacks;
mod polls;
mod reads;
mod requests;
mod sends;
mod ticks;

pub use calls::{ask_ack, close, consume, create, end, nack_missing, poll, send, tick};
