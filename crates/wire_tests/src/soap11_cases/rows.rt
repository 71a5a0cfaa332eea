//! Messages of SOAP 1.1 as they are read.
use crate::soap11_cases::forms::{START11, joined, kind_of};
use rm_base::{Binding, Memory, Payload};
use rm_message::elements::SeqHeader;
use rm_message::{Body, FaultBody, FaultCode, FaultKind, Message};
use rm_wire::soap11::decode11;
use soap_document::profile::Name;
use std::alloc::Global;
use wsa_headers::Addressing;

// The row that is read in SOAP 1.2 too, by another namespace: a payload with a number.
const ROW: &[u8] = b"<?xml version=\"1.0\" encoding=\"UTF-8\"?><!-- x --><S:Envelope \
    xmlns:S='http://schemas.xmlsoap.org/soap/envelope/' xmlns:wsa=\"http://www.w3.org/2005/08/addressing\" \
    xmlns:rm=\"http://docs.oasis-open.org/ws-rx/wsrm/200702\" xmlns:o=\"urn:o\"\
    ><S:Header><wsa:Action S:mustUnderstand=\"1\">urn:buy&amp;sell</wsa:Action><rm:Sequence S:mustUnderstand=\"1\"\
    ><rm:Identifier>urn:q</rm:Identifier><rm:MessageNumber> 07 </rm:MessageNumber></rm:Sequence></S:Header>\
    <S:Body><o:x/></S:Body></S:Envelope>";

const TWELVE: &[u8] =
    b"<S:Envelope xmlns:S='http://www.w3.org/2003/05/soap-envelope'><S:Body/></S:Envelope>";

// Blocks that nobody knows: to be understood by `1`, by a word that says nothing in SOAP 1.1, and by another actor.
const ONE: &[u8] = b"<s:Envelope xmlns:s='http://schemas.xmlsoap.org/soap/envelope/' \
    xmlns:a='http://www.w3.org/2005/08/addressing'><s:Header><a:Action>urn:x</a:Action><h xmlns='urn:h' \
    s:mustUnderstand=' 1 ' s:actor='http://schemas.xmlsoap.org/soap/actor/next'/></s:Header><s:Body/></s:Envelope>";

const TRUE: &[u8] = b"<s:Envelope xmlns:s='http://schemas.xmlsoap.org/soap/envelope/' \
    xmlns:a='http://www.w3.org/2005/08/addressing'><s:Header><a:Action>urn:x</a:Action><h xmlns='urn:h' \
    s:mustUnderstand='true'/><g xmlns='urn:h' s:mustUnderstand='1' s:actor='urn:other'/></s:Header><s:Body/>\
    </s:Envelope>";

const TWO_FAULTS: &[u8] = b"<s:Envelope xmlns:s='http://schemas.xmlsoap.org/soap/envelope/' \
    xmlns:a='http://www.w3.org/2005/08/addressing' xmlns:r='http://docs.oasis-open.org/ws-rx/wsrm/200702'><s:Header>\
    <a:Action>urn:x</a:Action><r:SequenceFault><r:FaultCode>r:x</r:FaultCode></r:SequenceFault>\
    <r:SequenceFault><r:FaultCode>r:x</r:FaultCode></r:SequenceFault></s:Header><s:Body/></s:Envelope>";

// What is bound around the payload of the row.
const BOUND: [(&[u8], &[u8]); 4] = [
    (b"S", b"http://schemas.xmlsoap.org/soap/envelope/"),
    (b"o", b"urn:o"),
    (b"rm", b"http://docs.oasis-open.org/ws-rx/wsrm/200702"),
    (b"wsa", b"http://www.w3.org/2005/08/addressing"),
];

fn is_addressed(addressing: &Addressing) -> bool {
    addressing.to.as_slice() == b"http://www.w3.org/2005/08/addressing/anonymous".as_slice()
        && addressing.action.as_slice() == b"urn:buy&sell".as_slice()
        && addressing.message_id.is_none()
}

fn is_numbered(sequence: &Option<SeqHeader>) -> bool {
    match sequence {
        Some(sequence) => sequence.ident.as_slice() == b"urn:q".as_slice() && sequence.number == 7,
        None => false,
    }
}

fn is_bound(found: &[Binding]) -> bool {
    let mut are_same = found.len() == BOUND.len();
    for (binding, (prefix, space)) in found.iter().zip(BOUND.iter()) {
        are_same &= binding.prefix.as_slice() == *prefix && binding.space.as_slice() == *space;
    }
    are_same
}

fn is_content(payload: &Payload) -> bool {
    payload.bytes.as_slice() == b"<o:x/>".as_slice() && is_bound(payload.scope.as_slice())
}

fn has_payload(body: &Body) -> bool {
    match body {
        Body::Payload(payload) => is_content(payload),
        _ => false,
    }
}

// Whether a message is that of the row. No other function lets a message go but those with a message by value, since
// the proof of that takes long.
fn is_row(message: Message) -> bool {
    is_addressed(&message.addressing)
        && is_numbered(&message.sequence)
        && has_payload(&message.body)
}

fn is_row_read(alloc: Global, bytes: &[u8]) -> bool {
    match decode11(alloc, bytes) {
        Ok(message) => is_row(message),
        Err(_) => false,
    }
}

#[test]
fn envelopes_of_soap_1_1(rt: HostRuntime) {
    assert!(rt; is_row_read(rt.alloc(), ROW));
    assert!(rt; kind_of(rt.alloc(), TWELVE) == Some(FaultKind::WrongVersion));
}

#[test]
fn blocks_that_have_to_be_understood(rt: HostRuntime) {
    assert!(rt; kind_of(rt.alloc(), ONE) == Some(FaultKind::NotUnderstood));
    assert!(rt; kind_of(rt.alloc(), TRUE).is_none());
}

// A block, what stands in Fault, and what is read: the code, the namespace and local name of the subcode, and how many
// elements the detail has.
type Told = (
    &'static [u8],
    &'static [u8],
    FaultCode,
    &'static [u8],
    &'static [u8],
    usize,
);

const ADDRESSING: &[u8] = b"http://www.w3.org/2005/08/addressing";

const MESSAGING: &[u8] = b"http://docs.oasis-open.org/ws-rx/wsrm/200702";

const CONNECTION: &[u8] = b"http://docs.oasis-open.org/ws-rx/wsmc/200702";

// By the faultcode alone.
const CODES: [Told; 11] = [
    (
        b"",
        b"<faultcode>s:Client</faultcode>",
        FaultCode::Sender,
        b"",
        b"",
        0,
    ),
    (
        b"",
        b"<faultcode> s:Server </faultcode><detail><d/><e/></detail>",
        FaultCode::Receiver,
        b"",
        b"",
        2,
    ),
    (
        b"",
        b"<faultcode>s:VersionMismatch</faultcode>",
        FaultCode::VersionMismatch,
        b"",
        b"",
        0,
    ),
    (
        b"",
        b"<faultcode>s:MustUnderstand</faultcode>",
        FaultCode::MustUnderstand,
        b"",
        b"",
        0,
    ),
    (
        b"",
        b"<faultcode>s:Client.Authentication</faultcode>",
        FaultCode::Receiver,
        b"",
        b"",
        0,
    ),
    (
        b"",
        b"<faultcode>Client</faultcode>",
        FaultCode::Receiver,
        b"",
        b"",
        0,
    ),
    (
        b"",
        b"<faultcode xmlns:x='urn:x'>x:Client</faultcode>",
        FaultCode::Receiver,
        b"",
        b"",
        0,
    ),
    (
        b"",
        b"<faultcode>r:UnknownSequence</faultcode>",
        FaultCode::Sender,
        MESSAGING,
        b"UnknownSequence",
        0,
    ),
    (
        b"",
        b"<faultcode>r:CreateSequenceRefused</faultcode>",
        FaultCode::Receiver,
        MESSAGING,
        b"CreateSequenceRefused",
        0,
    ),
    (
        b"",
        b"<faultcode>a:InvalidAddressingHeader</faultcode><detail><d/></detail>",
        FaultCode::Sender,
        ADDRESSING,
        b"InvalidAddressingHeader",
        1,
    ),
    (
        b"",
        b"<faultcode>c:MissingSelection</faultcode>",
        FaultCode::Receiver,
        CONNECTION,
        b"MissingSelection",
        0,
    ),
];

// With a SequenceFault, which has the subcode and the detail.
const AHEAD: [Told; 5] = [
    (
        b"<r:SequenceFault><r:FaultCode>r:SequenceTerminated</r:FaultCode><r:Detail>\
        <r:Identifier>urn:q</r:Identifier></r:Detail></r:SequenceFault>",
        b"<faultcode>s:Client</faultcode>",
        FaultCode::Sender,
        MESSAGING,
        b"SequenceTerminated",
        1,
    ),
    (
        b"<r:SequenceFault><r:FaultCode>r:SequenceClosed</r:FaultCode></r:SequenceFault>",
        b"<faultcode>s:Server</faultcode>",
        FaultCode::Receiver,
        MESSAGING,
        b"SequenceClosed",
        0,
    ),
    (
        b"<r:SequenceFault><r:FaultCode>r:UnknownSequence</r:FaultCode><r:Detail><d/><e/></r:Detail></r:SequenceFault>",
        b"<faultcode>s:Client</faultcode><detail><f/></detail>",
        FaultCode::Sender,
        MESSAGING,
        b"UnknownSequence",
        2,
    ),
    (
        b"<r:SequenceFault><r:FaultCode>r:UnknownSequence</r:FaultCode></r:SequenceFault>",
        b"<faultcode>a:ActionNotSupported</faultcode>",
        FaultCode::Receiver,
        MESSAGING,
        b"UnknownSequence",
        0,
    ),
    (
        b"<r:SequenceFault><r:FaultCode xmlns:x='urn:x'>x:y</r:FaultCode></r:SequenceFault>",
        b"<faultcode>s:Client</faultcode>",
        FaultCode::Sender,
        b"urn:x",
        b"y",
        0,
    ),
];

// Whether there is no name, where none is wanted, or this.
fn is_name(found: &Option<Name>, space: &[u8], local: &[u8]) -> bool {
    match found {
        Some(name) => name.space() == space && name.local() == local,
        None => local.is_empty(),
    }
}

fn is_fault(fault: &FaultBody, row: &Told) -> bool {
    fault.code == row.2
        && is_name(&fault.subcode, row.3, row.4)
        && fault.inner.is_none()
        && fault.reason.as_slice() == b"so it is".as_slice()
        && fault.detail.len() == row.5
}

fn has_fault(message: Message, row: &Told) -> bool {
    match &message.body {
        Body::Fault(fault) => is_fault(fault, row),
        _ => false,
    }
}

fn is_told(alloc: Global, row: &Told) -> Result<bool, Memory> {
    let document = joined(
        alloc,
        &[
            START11,
            b"<s:Header><a:Action>urn:x</a:Action>",
            row.0,
            b"</s:Header><s:Body><s:Fault><faultstring> so it is </faultstring>",
            row.1,
            b"</s:Fault></s:Body></s:Envelope>",
        ],
    )?;
    match decode11(alloc, document.as_slice()) {
        Ok(message) => Ok(has_fault(message, row)),
        Err(_) => Ok(false),
    }
}

#[test]
fn faults_by_their_faultcode(rt: HostRuntime) -> Result<(), Memory> {
    for row in &CODES {
        assert!(rt; is_told(rt.alloc(), row)?, "{}", row.1.escape_ascii());
    }
    Ok(())
}

#[test]
fn faults_with_a_sequence_fault(rt: HostRuntime) -> Result<(), Memory> {
    for row in &AHEAD {
        assert!(rt; is_told(rt.alloc(), row)?, "{}", row.0.escape_ascii());
    }
    assert!(rt; kind_of(rt.alloc(), TWO_FAULTS) == Some(FaultKind::Malformed));
    Ok(())
}
