//! The destination's side of one sequence: the messages that were received, the inbox, and what is discarded once the
//! sequence is closed. Contracts see `Incoming` as what is known of the sequence with the room for more beside it. They
//! say exactly how each message is answered. The tables of a node use the same definitions of messages
//! (`specs/Destination/Messages`, `specs/Destination/Incoming`).

mod arrivals;
pub mod incoming;
pub mod laws;
pub mod outcome;

pub use incoming::{Incoming, is_loose, is_past};
pub use outcome::{DestError, InPhase, Took};
