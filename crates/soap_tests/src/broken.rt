//! Bytes that are no document.
use rm_policy::{PolicyError, read_assertion};
use soap_document::profile::EnvelopeError;
use std::alloc::Global;

// The reason that bytes are no document.
fn flaw(alloc: Global, document: &[u8]) -> Option<EnvelopeError> {
    match read_assertion(alloc, document) {
        Err(PolicyError::Envelope(error)) => Some(error),
        _ => None,
    }
}

const NO_DOCUMENTS: [(&[u8], Option<EnvelopeError>); 5] = [
    (b"", Some(EnvelopeError::NotProfile)),
    (b"<!DOCTYPE a><a/>", Some(EnvelopeError::NotProfile)),
    (b"<p:RMAssertion/>", Some(EnvelopeError::NotProfile)),
    (
        b"<a>\xff</a>",
        Some(EnvelopeError::NotUtf8 { valid_up_to: 3 }),
    ),
    (b"<a/>", None),
];

#[test]
fn no_documents(rt: HostRuntime) {
    for (document, wanted) in NO_DOCUMENTS {
        assert!(rt; flaw(rt.alloc(), document) == wanted);
    }
}
