//! Envelopes, read.
use rm_base::{Blob, Memory, Payload, push_decimal};
use soap_document::profile::EnvelopeError;
use soap_envelope::{Envelope, read_envelope};
use std::alloc::Global;

pub const REQUEST: &str = concat!(
    r#"<?xml version="1.0" encoding="UTF-8"?><!-- x -->"#,
    r#"<S:Envelope xmlns:S='http://www.w3.org/2003/05/soap-envelope'"#,
    r#" xmlns:wsa="http://www.w3.org/2005/08/addressing""#,
    r#" xmlns:rm="http://docs.oasis-open.org/ws-rx/wsrm/200702" xmlns:o="urn:o">"#,
    r#"<S:Header><wsa:Action S:mustUnderstand="1">urn:buy&amp;sell</wsa:Action>"#,
    r#"<rm:Sequence S:mustUnderstand="1"><rm:Identifier>urn:q</rm:Identifier>"#,
    r#"<rm:MessageNumber> 07 </rm:MessageNumber></rm:Sequence></S:Header>"#,
    r#"<S:Body><o:x/></S:Body></S:Envelope>"#
);

// These parts in an Envelope.
fn wrapped(alloc: Global, parts: &[u8]) -> Result<Blob, Memory> {
    let mut text = Blob::new(alloc);
    push_wrapped(&mut text, parts)?;
    Ok(text)
}

fn push_wrapped(text: &mut Blob, parts: &[u8]) -> Result<(), Memory> {
    text.push_all(b"<S:Envelope xmlns:S='http://www.w3.org/2003/05/soap-envelope' xmlns='u'>")?;
    text.push_all(parts)?;
    text.push_all(b"</S:Envelope>")
}

// Whether bytes are no envelope for this reason.
fn is_refused(alloc: Global, bytes: &[u8], reason: EnvelopeError) -> bool {
    match read_envelope(alloc, bytes) {
        Ok(_) => false,
        Err(error) => error == reason,
    }
}

// An envelope as the counts of its header blocks, of the header's bindings and of the body's parts, then the payload's
// bindings, and its bytes.
pub fn shown(alloc: Global, document: &[u8]) -> Result<Blob, EnvelopeError> {
    let envelope = read_envelope(alloc, document)?;
    Ok(shown_envelope(alloc, &envelope)?)
}

// Whether a document is an envelope that is shown so.
pub fn is_shown(alloc: Global, document: &[u8], wanted: &[u8]) -> bool {
    match shown(alloc, document) {
        Ok(found) => found.as_slice() == wanted,
        Err(_) => false,
    }
}

pub fn shown_envelope(alloc: Global, envelope: &Envelope) -> Result<Blob, Memory> {
    let mut out = Blob::new(alloc);
    push_envelope(&mut out, envelope)?;
    Ok(out)
}

fn push_envelope(out: &mut Blob, envelope: &Envelope) -> Result<(), Memory> {
    push_decimal(out, envelope.headers.len() as u64)?;
    out.push_all(b" ")?;
    push_decimal(out, envelope.header_scope.len() as u64)?;
    out.push_all(b" ")?;
    push_decimal(out, envelope.body.len() as u64)?;
    push_payload(out, &envelope.payload)
}

fn push_payload(out: &mut Blob, payload: &Payload) -> Result<(), Memory> {
    for binding in payload.scope.as_slice() {
        out.push_all(b" ")?;
        out.push_all(binding.prefix.as_slice())?;
        out.push_all(b"=")?;
        out.push_all(binding.space.as_slice())?;
    }
    out.push_all(b" ")?;
    out.push_all(payload.bytes.as_slice())
}

pub const REQUEST_SHOWN: &str = concat!(
    "2 4 1 S=http://www.w3.org/2003/05/soap-envelope o=urn:o",
    " rm=http://docs.oasis-open.org/ws-rx/wsrm/200702 wsa=http://www.w3.org/2005/08/addressing <o:x/>"
);

#[test]
fn reads_a_request(rt: HostRuntime) {
    assert!(rt; is_shown(rt.alloc(), REQUEST.as_bytes(), REQUEST_SHOWN.as_bytes()));
}

#[test]
fn a_request_is_whole(rt: HostRuntime) {
    if let Some((_, cut)) = REQUEST.as_bytes().split_last() {
        assert!(rt; is_refused(rt.alloc(), cut, EnvelopeError::NotProfile));
    }
}

// Whether these parts have this between Body's tags, with two bindings and no header blocks.
fn has_payload(alloc: Global, row: &(&[u8], &[u8])) -> Result<bool, Memory> {
    Ok(reads_payload(alloc, wrapped(alloc, row.0)?.as_slice(), row.1))
}

// Whether an envelope has this between Body's tags, with two bindings and no header blocks.
fn reads_payload(alloc: Global, text: &[u8], payload: &[u8]) -> bool {
    match read_envelope(alloc, text) {
        Ok(envelope) => is_alone(&envelope, payload),
        Err(_) => false,
    }
}

fn is_alone(envelope: &Envelope, payload: &[u8]) -> bool {
    let are_so = (envelope.payload.scope.len() == 2) & (envelope.headers.len() == 0);
    are_so & (envelope.payload.bytes.as_slice() == payload)
}

const PAYLOADS: [(&[u8], &[u8]); 5] = [
    (b"<S:Body/>", b""),
    (b"<S:Body>t</S:Body>", b"t"),
    (b"<S:Body>\r\n</S:Body>", b"\r\n"),
    (b"<S:Body>&lt;<![CDATA[ ]]></S:Body>", b"&lt;<![CDATA[ ]]>"),
    (
        b"&#32;<S:Header/><![CDATA[ ]]><S:Body><a/></S:Body>\n<!-- c -->",
        b"<a/>",
    ),
];

#[test]
fn takes_the_bytes_between_the_tags(rt: HostRuntime) {
    for row in &PAYLOADS {
        assert!(rt;
            has_payload(rt.alloc(), row) == Ok(true),
            "{}",
            row.0.escape_ascii()
        );
    }
}

// Parts, and how their envelope is shown: a body is its parts alone, and text in Header is passed over.
const PARTS_SHOWN: [(&str, &str); 2] = [
    (
        "<S:Body xmlns:p='v' p:a='1'>t<p:b/></S:Body>",
        "0 0 2 =u S=http://www.w3.org/2003/05/soap-envelope p=v t<p:b/>",
    ),
    (
        "<S:Header xmlns:p='v'>t<a/>u<p:b/></S:Header><S:Body xmlns=''/>",
        "2 3 0 S=http://www.w3.org/2003/05/soap-envelope ",
    ),
];

fn are_parts_shown(alloc: Global, row: &(&str, &str)) -> Result<bool, Memory> {
    let text = wrapped(alloc, row.0.as_bytes())?;
    Ok(is_shown(alloc, text.as_slice(), row.1.as_bytes()))
}

#[test]
fn parts_are_shown(rt: HostRuntime) {
    for row in &PARTS_SHOWN {
        assert!(rt; are_parts_shown(rt.alloc(), row) == Ok(true), "{}", row.0);
    }
}

// Whether these parts make no envelope.
fn are_refused(alloc: Global, parts: &[u8]) -> Result<bool, Memory> {
    let text = wrapped(alloc, parts)?;
    Ok(is_refused(alloc, text.as_slice(), EnvelopeError::NotEnvelope))
}

const OTHER_PARTS: [&[u8]; 8] = [
    b"",
    b"<S:Header/>",
    b"<S:Body/><S:Header/>",
    b"<S:Body/><S:Body/>",
    b"<S:Header/><S:Header/><S:Body/>",
    b"<S:Header/>t<S:Body/>",
    b"<a/><S:Body/>",
    b"<Body/>",
];

#[test]
fn refuses_other_parts(rt: HostRuntime) {
    for parts in &OTHER_PARTS {
        assert!(rt;
            are_refused(rt.alloc(), parts) == Ok(true),
            "{}",
            parts.escape_ascii()
        );
    }
}

const REASONS: [(&[u8], EnvelopeError); 5] = [
    (b"", EnvelopeError::NotProfile),
    (b"<!DOCTYPE a><a/>", EnvelopeError::NotProfile),
    (b"\x3c\xff", EnvelopeError::NotUtf8 { valid_up_to: 1 }),
    (
        b"<Envelope xmlns=\"http://schemas.xmlsoap.org/soap/envelope/\"><Body/></Envelope>",
        EnvelopeError::WrongVersion,
    ),
    (
        b"<Fault xmlns='http://www.w3.org/2003/05/soap-envelope'><Body/></Fault>",
        EnvelopeError::NotEnvelope,
    ),
];

#[test]
fn tells_errors(rt: HostRuntime) {
    for (bytes, reason) in &REASONS {
        assert!(rt;
            is_refused(rt.alloc(), bytes, *reason),
            "{}",
            bytes.escape_ascii()
        );
    }
}
