//! The two sides of one sequence, as values in memory, and the sets of message numbers that both keep.
//! - `ranges`: a set of message numbers as ranges, `RangeSet`, as an acknowledgement carries them.
//! - `source`: the side that sends, `Outgoing`: `accept` numbers a payload, `learn` notes what was acknowledged.
//! - `destination`: the side that receives, `Incoming`: `take` answers a message, and keeps it where it is new.
//! Contracts see each side as what is known of the sequence, and beside it how much more it has room for.
#![tactic(auto)]

pub mod destination;
pub mod ranges;
pub mod source;
