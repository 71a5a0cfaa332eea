//! The writing and the reading of whole messages, joined.
//! - `laws`: what is written of a message that keeps the rules is read back as this message and no other.
//! - `read_laws`: laws alone: a message that was read keeps these rules, and each refusal may be answered with a fault.
//! - `soap11`: the gate for peers that speak SOAP 1.1. `decode11` reads such a message, `lift` writes it in SOAP 1.2
//!   and `lower` writes one in SOAP 1.1.
#![tactic(auto)]

pub mod laws;

pub use laws::{a_fault_keeps_the_rules, what_is_written_has_one_message, what_is_written_is_read};

pub mod read_laws;
pub mod soap11;
