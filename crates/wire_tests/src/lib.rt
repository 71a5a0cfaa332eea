//! Tests of `message_reader` and `message_writer` together, and of `rm_wire::soap11`.
//! - `wire_cases`: messages in the styles of several stacks, envelopes that come in pieces, and the greatest length.
//! - `wire_texts`: the texts of messages and of faults, byte for byte, and envelopes of many forms.
//! - `soap11_cases`: the examples of the standards and the fault of each kind, in SOAP 1.1.
#![tactic(auto)]

pub mod soap11_cases;
pub mod wire_cases;
pub mod wire_texts;
