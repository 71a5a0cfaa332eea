//! An envelope, as a value.
use rm_base::{Bindings, Payload};
use soap_document::profile::{Elements, Parts};

/// An envelope: SOAP 1.2 Part 1, section 5.
#[derive(Debug, Drop)]
pub struct Envelope {
    /// The header blocks, in order.
    pub headers: Elements,
    /// The bindings in force between Header's tags, but `xml`, sorted by prefix; none without a Header.
    pub header_scope: Bindings,
    /// The bytes between Body's tags as they came, and the bindings in force there, but `xml`, sorted by prefix.
    pub payload: Payload,
    /// What those bytes are: Body's parts, without its declarations and attributes.
    pub body: Parts,
}
