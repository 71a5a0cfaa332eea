//! Whole messages from bytes, of SOAP 1.2 or 1.1.
//! `decode` answers the `Message` that the bytes spell in SOAP 1.2. Where they spell none it answers a `Refusal`: the
//! first reason, and where the fault goes. `decode_in` does so for the namespace of either version of SOAP.
//! `decode_read` does so of what a reader of envelopes answered, such as one that is fed pieces.
//! `specs/Message` and `specs/Reading` say what bytes spell, `specs/Refusals` why they spell nothing.
#![tactic(auto)]

mod blocks;
mod body;
mod cause;
pub mod decoder;
mod fault;
mod fault11;
mod headers;
pub mod laws;
mod read;
mod refusal;

pub use decoder::{decode, decode_in, decode_read};
