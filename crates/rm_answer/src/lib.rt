//! What goes back on an HTTP connection, in each version of SOAP: a `Reply`, which is a status and a body.
//! `reply_to` makes it for a message that a node took, `fault_reply` for a body that is refused, and `refusal_to` for a
//! request that could not be read.
#![tactic(auto)]

pub mod reply;

pub use reply::{Reply, fault_reply, refusal_to, reply_to};
