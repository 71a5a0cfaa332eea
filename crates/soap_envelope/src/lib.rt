//! Envelopes of SOAP, read from bytes, and the frame of one, written.
//! `read_envelope` answers an `Envelope`: its header blocks, and the exact bytes between Body's tags, each with the
//! bindings in force there. `specs/Envelope` says which bytes are an envelope.
//! - `frame`: the tags around header blocks and a payload, written so that they are read back as they were.
#![tactic(auto)]

pub mod envelope;
pub mod laws;
mod outline;
pub mod read;
mod scope;

pub use envelope::Envelope;
pub use read::{SOAP_SPACE, SOAP11_SPACE, envelope_of, is_soap11, read_envelope, read_envelope_in};

pub mod frame;
