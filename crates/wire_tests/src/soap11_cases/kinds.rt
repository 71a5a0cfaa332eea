//! The faults of all kinds in SOAP 1.1: as each is written there, and as it is read from there. The codes and subcodes
//! are those of WS-ReliableMessaging 1.2, section 4, WS-Addressing 1.0 SOAP Binding, section 6, and WS-MakeConnection
//! 1.1, section 4; the reasons are ours.
use crate::soap11_cases::forms::{START11, is_text, joined, lowered};
use message_writer::fault_message;
use rm_base::{Blob, Ident, Memory, TextError, Uri};
use rm_message::elements::{AckBlock, AckKind, Ranges};
use rm_message::{Body, FaultBody, FaultCode, FaultKind, Message, Names, Refusal};
use rm_sides::ranges::Range;
use rm_wire::soap11::decode11;
use soap_document::profile::{Elements, Name, Shared};
use std::alloc::Global;
use wsa_headers::Epr;

const OF_SOAP: &[u8] = b"http://www.w3.org/2005/08/addressing/soap/fault";

const OF_ADDRESSING: &[u8] = b"http://www.w3.org/2005/08/addressing/fault";

const OF_MESSAGING: &[u8] = b"http://docs.oasis-open.org/ws-rx/wsrm/200702/fault";

const OF_CONNECTION: &[u8] = b"http://docs.oasis-open.org/ws-rx/wsmc/200702/fault";

const ADDRESSING: &[u8] = b"http://www.w3.org/2005/08/addressing";

const MESSAGING: &[u8] = b"http://docs.oasis-open.org/ws-rx/wsrm/200702";

const CONNECTION: &[u8] = b"http://docs.oasis-open.org/ws-rx/wsmc/200702";

// A kind, the action of its fault, the blocks behind the action, the faultcode, the reason, and what is read: the code,
// the namespace and local name of the subcode, and how many elements the detail has.
type Row = (
    FaultKind,
    &'static [u8],
    &'static [u8],
    &'static [u8],
    &'static [u8],
    FaultCode,
    &'static [u8],
    &'static [u8],
    usize,
);

// The kinds whose subcode is told by the faultcode, or that have none.
const IN_THE_CODE: [Row; 14] = [
    (
        FaultKind::TooLong,
        OF_SOAP,
        b"",
        b"<faultcode>s:Client</faultcode>",
        b"TooLong",
        FaultCode::Sender,
        b"",
        b"",
        0,
    ),
    (
        FaultKind::NotUtf8,
        OF_SOAP,
        b"",
        b"<faultcode>s:Client</faultcode>",
        b"NotUtf8",
        FaultCode::Sender,
        b"",
        b"",
        0,
    ),
    (
        FaultKind::NotProfile,
        OF_SOAP,
        b"",
        b"<faultcode>s:Client</faultcode>",
        b"NotProfile",
        FaultCode::Sender,
        b"",
        b"",
        0,
    ),
    (
        FaultKind::WrongVersion,
        OF_SOAP,
        b"",
        b"<faultcode>s:VersionMismatch</faultcode>",
        b"WrongVersion",
        FaultCode::VersionMismatch,
        b"",
        b"",
        0,
    ),
    (
        FaultKind::NotEnvelope,
        OF_SOAP,
        b"",
        b"<faultcode>s:Client</faultcode>",
        b"NotEnvelope",
        FaultCode::Sender,
        b"",
        b"",
        0,
    ),
    (
        FaultKind::NotUnderstood,
        OF_SOAP,
        b"",
        b"<faultcode>s:MustUnderstand</faultcode>",
        b"NotUnderstood",
        FaultCode::MustUnderstand,
        b"",
        b"",
        0,
    ),
    // (the subcode within the subcode, InvalidCardinality, is not told)
    (
        FaultKind::Cardinality,
        OF_ADDRESSING,
        b"",
        b"<faultcode xmlns:q=\"http://www.w3.org/2005/08/addressing\">q:InvalidAddressingHeader</faultcode>",
        b"Cardinality",
        FaultCode::Sender,
        ADDRESSING,
        b"InvalidAddressingHeader",
        0,
    ),
    (
        FaultKind::HeaderMissing,
        OF_ADDRESSING,
        b"",
        b"<faultcode xmlns:q=\"http://www.w3.org/2005/08/addressing\">q:MessageAddressingHeaderRequired</faultcode>",
        b"HeaderMissing",
        FaultCode::Sender,
        ADDRESSING,
        b"MessageAddressingHeaderRequired",
        0,
    ),
    (
        FaultKind::BadHeader,
        OF_ADDRESSING,
        b"",
        b"<faultcode xmlns:q=\"http://www.w3.org/2005/08/addressing\">q:InvalidAddressingHeader</faultcode>",
        b"BadHeader",
        FaultCode::Sender,
        ADDRESSING,
        b"InvalidAddressingHeader",
        0,
    ),
    (
        FaultKind::Malformed,
        OF_SOAP,
        b"",
        b"<faultcode>s:Client</faultcode>",
        b"Malformed",
        FaultCode::Sender,
        b"",
        b"",
        0,
    ),
    (
        FaultKind::CreateSequenceRefused,
        OF_MESSAGING,
        b"",
        b"<faultcode xmlns:q=\"http://docs.oasis-open.org/ws-rx/wsrm/200702\">q:CreateSequenceRefused</faultcode>",
        b"CreateSequenceRefused",
        FaultCode::Receiver,
        MESSAGING,
        b"CreateSequenceRefused",
        0,
    ),
    (
        FaultKind::MissingSelection,
        OF_CONNECTION,
        b"",
        b"<faultcode xmlns:q=\"http://docs.oasis-open.org/ws-rx/wsmc/200702\">q:MissingSelection</faultcode>",
        b"MissingSelection",
        FaultCode::Receiver,
        CONNECTION,
        b"MissingSelection",
        0,
    ),
    (
        FaultKind::UnsupportedSelection,
        OF_CONNECTION,
        b"",
        b"<faultcode xmlns:q=\"http://docs.oasis-open.org/ws-rx/wsmc/200702\">q:UnsupportedSelection</faultcode>",
        b"UnsupportedSelection",
        FaultCode::Receiver,
        CONNECTION,
        b"UnsupportedSelection",
        0,
    ),
    (
        FaultKind::StoreFull,
        OF_SOAP,
        b"",
        b"<faultcode>s:Server</faultcode>",
        b"StoreFull",
        FaultCode::Receiver,
        b"",
        b"",
        0,
    ),
];

// The kinds whose subcode is told by a SequenceFault, with its detail.
const IN_A_SEQUENCE_FAULT: [Row; 6] = [
    (
        FaultKind::Rollover,
        OF_MESSAGING,
        b"<r:SequenceFault><r:FaultCode>r:MessageNumberRollover</r:FaultCode><r:Detail>\
        <n:Identifier xmlns:n=\"http://docs.oasis-open.org/ws-rx/wsrm/200702\">urn:q</n:Identifier>\
        <n:MaxMessageNumber xmlns:n=\"http://docs.oasis-open.org/ws-rx/wsrm/200702\">9223372036854775807\
        </n:MaxMessageNumber></r:Detail></r:SequenceFault>",
        b"<faultcode>s:Client</faultcode>",
        b"Rollover",
        FaultCode::Sender,
        MESSAGING,
        b"MessageNumberRollover",
        2,
    ),
    (
        FaultKind::WsrmRequired,
        OF_MESSAGING,
        b"<r:SequenceFault><r:FaultCode>r:WSRMRequired</r:FaultCode></r:SequenceFault>",
        b"<faultcode>s:Client</faultcode>",
        b"WsrmRequired",
        FaultCode::Sender,
        MESSAGING,
        b"WSRMRequired",
        0,
    ),
    (
        FaultKind::UnknownSequence,
        OF_MESSAGING,
        b"<r:SequenceFault><r:FaultCode>r:UnknownSequence</r:FaultCode><r:Detail>\
        <n:Identifier xmlns:n=\"http://docs.oasis-open.org/ws-rx/wsrm/200702\">urn:q</n:Identifier></r:Detail>\
        </r:SequenceFault>",
        b"<faultcode>s:Client</faultcode>",
        b"UnknownSequence",
        FaultCode::Sender,
        MESSAGING,
        b"UnknownSequence",
        1,
    ),
    (
        FaultKind::SequenceTerminated,
        OF_MESSAGING,
        b"<r:SequenceFault><r:FaultCode>r:SequenceTerminated</r:FaultCode><r:Detail>\
        <n:Identifier xmlns:n=\"http://docs.oasis-open.org/ws-rx/wsrm/200702\">urn:q</n:Identifier></r:Detail>\
        </r:SequenceFault>",
        b"<faultcode>s:Client</faultcode>",
        b"SequenceTerminated",
        FaultCode::Sender,
        MESSAGING,
        b"SequenceTerminated",
        1,
    ),
    (
        FaultKind::SequenceClosed,
        OF_MESSAGING,
        b"<r:SequenceAcknowledgement><r:Identifier>urn:q</r:Identifier>\
        <r:AcknowledgementRange Lower=\"1\" Upper=\"2\"/><r:AcknowledgementRange Lower=\"9\" Upper=\"9\"/><r:Final/>\
        </r:SequenceAcknowledgement><r:SequenceFault><r:FaultCode>r:SequenceClosed</r:FaultCode><r:Detail>\
        <n:Identifier xmlns:n=\"http://docs.oasis-open.org/ws-rx/wsrm/200702\">urn:q</n:Identifier></r:Detail>\
        </r:SequenceFault>",
        b"<faultcode>s:Client</faultcode>",
        b"SequenceClosed",
        FaultCode::Sender,
        MESSAGING,
        b"SequenceClosed",
        1,
    ),
    (
        FaultKind::InvalidAcknowledgement,
        OF_MESSAGING,
        b"<r:SequenceFault><r:FaultCode>r:InvalidAcknowledgement</r:FaultCode><r:Detail>\
        <n:SequenceAcknowledgement xmlns:n=\"http://docs.oasis-open.org/ws-rx/wsrm/200702\">\
        <n:Identifier xmlns:n=\"http://docs.oasis-open.org/ws-rx/wsrm/200702\">urn:q</n:Identifier>\
        <n:AcknowledgementRange xmlns:n=\"http://docs.oasis-open.org/ws-rx/wsrm/200702\" Lower=\"1\" Upper=\"2\">\
        </n:AcknowledgementRange>\
        <n:AcknowledgementRange xmlns:n=\"http://docs.oasis-open.org/ws-rx/wsrm/200702\" Lower=\"9\" Upper=\"9\">\
        </n:AcknowledgementRange><n:Final xmlns:n=\"http://docs.oasis-open.org/ws-rx/wsrm/200702\"></n:Final>\
        </n:SequenceAcknowledgement></r:Detail></r:SequenceFault>",
        b"<faultcode>s:Client</faultcode>",
        b"InvalidAcknowledgement",
        FaultCode::Sender,
        MESSAGING,
        b"InvalidAcknowledgement",
        1,
    ),
];

// An endpoint without parameters.
fn endpoint(alloc: Global, address: &[u8]) -> Result<Epr, TextError> {
    Ok(Epr {
        address: Uri::from_slice(alloc, address)?,
        params: Elements::new(alloc),
    })
}

// One name that was not understood.
fn names(alloc: Global) -> Result<Names, Memory> {
    let mut names = Names::new(alloc);
    let space = Shared::from_slice(alloc, b"urn:x")?;
    names.push(Name::new(alloc, space, b"h")?)?;
    Ok(names)
}

// A refusal that goes to the other end of the connection, with a name that was not understood and a sequence: a fault
// tells of them where its kind does.
fn refusal(alloc: Global, kind: FaultKind) -> Result<Refusal, TextError> {
    Ok(Refusal {
        kind,
        endpoint: endpoint(alloc, b"http://www.w3.org/2005/08/addressing/anonymous")?,
        relates: None,
        names: names(alloc)?,
        ident: Some(Ident::from_slice(alloc, b"urn:q")?),
    })
}

fn ranges(alloc: Global) -> Result<Ranges, Memory> {
    let mut ranges = Ranges::new(alloc);
    ranges.push(Range { lower: 1, upper: 2 })?;
    ranges.push(Range { lower: 9, upper: 9 })?;
    Ok(ranges)
}

fn acknowledgement(alloc: Global) -> Result<AckBlock, TextError> {
    Ok(AckBlock {
        ident: Ident::from_slice(alloc, b"urn:q")?,
        kind: AckKind::Ranges(ranges(alloc)?),
        last: true,
    })
}

// The acknowledgement that goes with a kind.
fn block(alloc: Global, kind: FaultKind) -> Result<Option<AckBlock>, TextError> {
    match kind {
        FaultKind::SequenceClosed | FaultKind::InvalidAcknowledgement => Ok(Some(acknowledgement(
            alloc,
        )?)),
        _ => Ok(None),
    }
}

// What the fault of a refusal is lowered to.
fn told(alloc: Global, refusal: &Refusal, block: Option<AckBlock>) -> Result<Option<Blob>, Memory> {
    lowered(alloc, fault_message(alloc, refusal, block)?)
}

// The whole envelope of a row.
fn envelope(alloc: Global, row: &Row) -> Result<Blob, Memory> {
    joined(
        alloc,
        &[
            START11,
            b"<s:Header><a:To>http://www.w3.org/2005/08/addressing/anonymous</a:To><a:Action>",
            row.1,
            b"</a:Action>",
            row.2,
            b"</s:Header><s:Body><s:Fault>",
            row.3,
            b"<faultstring>",
            row.4,
            b"</faultstring></s:Fault></s:Body></s:Envelope>",
        ],
    )
}

fn is_told(alloc: Global, row: &Row) -> Result<bool, TextError> {
    let refusal = refusal(alloc, row.0)?;
    let found = told(alloc, &refusal, block(alloc, row.0)?)?;
    let text = envelope(alloc, row)?;
    Ok(is_text(&found, text.as_slice()))
}

// Whether there is no name, where none is wanted, or this.
fn is_name(found: &Option<Name>, space: &[u8], local: &[u8]) -> bool {
    match found {
        Some(name) => name.space() == space && name.local() == local,
        None => local.is_empty(),
    }
}

fn is_fault(fault: &FaultBody, row: &Row) -> bool {
    fault.code == row.5
        && is_name(&fault.subcode, row.6, row.7)
        && fault.inner.is_none()
        && fault.reason.as_slice() == row.4
        && fault.detail.len() == row.8
}

// No other function lets a message go that was read here, since the proof of that takes long.
fn has_fault(message: Message, row: &Row) -> bool {
    match &message.body {
        Body::Fault(fault) => is_fault(fault, row),
        _ => false,
    }
}

fn is_read(alloc: Global, row: &Row) -> Result<bool, Memory> {
    let text = envelope(alloc, row)?;
    match decode11(alloc, text.as_slice()) {
        Ok(message) => Ok(has_fault(message, row)),
        Err(_) => Ok(false),
    }
}

#[test]
fn kinds_told_by_the_faultcode(rt: HostRuntime) -> Result<(), TextError> {
    for row in &IN_THE_CODE {
        assert!(rt; is_told(rt.alloc(), row)?, "{:?}", row.0);
        assert!(rt; is_read(rt.alloc(), row)?, "{:?} read", row.0);
    }
    Ok(())
}

#[test]
fn kinds_told_by_a_sequence_fault(rt: HostRuntime) -> Result<(), TextError> {
    for row in &IN_A_SEQUENCE_FAULT {
        assert!(rt; is_told(rt.alloc(), row)?, "{:?}", row.0);
        assert!(rt; is_read(rt.alloc(), row)?, "{:?} read", row.0);
    }
    Ok(())
}
