//! The acknowledgement of the first message of a sequence, from its values to its text and back.
use crate::wire_texts::forms::{START, written};
use message_reader::decode;
use rm_base::{Blob, Ident, Memory, TextError, Uri};
use rm_message::elements::{AckBlock, AckKind, Ranges};
use rm_message::{Acks, Body, Idents, Message, Names};
use rm_sides::ranges::Range;
use soap_document::profile::Elements;
use std::alloc::Global;
use wsa_headers::Addressing;

const TO: &[u8] = b"http://node1.example/";

const ACTION: &[u8] = b"http://docs.oasis-open.org/ws-rx/wsrm/200702/SequenceAcknowledgement";

const IDENT: &[u8] = b"urn:uuid:00000000-0000-8002-8000-000000000001";

// What stands behind the start tag of the envelope.
const REST: &[u8] = b"<s:Header><a:To>http://node1.example/</a:To><a:Action>\
    http://docs.oasis-open.org/ws-rx/wsrm/200702/SequenceAcknowledgement</a:Action><r:SequenceAcknowledgement>\
    <r:Identifier>urn:uuid:00000000-0000-8002-8000-000000000001</r:Identifier><r:AcknowledgementRange Lower=\"1\" \
    Upper=\"1\"/></r:SequenceAcknowledgement></s:Header><s:Body></s:Body></s:Envelope>";

fn addressing(alloc: Global) -> Result<Addressing, TextError> {
    Ok(Addressing {
        to: Uri::from_slice(alloc, TO)?,
        action: Uri::from_slice(alloc, ACTION)?,
        message_id: None,
        relates: None,
        reply_to: None,
        fault_to: None,
        params: Elements::new(alloc),
    })
}

fn acknowledgement(alloc: Global) -> Result<AckBlock, TextError> {
    let mut ranges = Ranges::new(alloc);
    ranges.push(Range { lower: 1, upper: 1 })?;
    Ok(AckBlock {
        ident: Ident::from_slice(alloc, IDENT)?,
        kind: AckKind::Ranges(ranges),
        last: false,
    })
}

fn acks(alloc: Global) -> Result<Acks, TextError> {
    let mut acks = Acks::new(alloc);
    acks.push(acknowledgement(alloc)?)?;
    Ok(acks)
}

// The message of these parts.
fn message_of(alloc: Global, addressing: Addressing, acks: Acks) -> Message {
    Message {
        addressing,
        sequence: None,
        acks,
        asks: Idents::new(alloc),
        pending: None,
        not_understood: Names::new(alloc),
        body: Body::Empty,
    }
}

fn message(alloc: Global) -> Result<Message, TextError> {
    let acks = acks(alloc)?;
    Ok(message_of(alloc, addressing(alloc)?, acks))
}

// Its text.
fn text(alloc: Global) -> Result<Blob, Memory> {
    let mut text = Blob::from_slice(alloc, START)?;
    text.push_all(REST)?;
    Ok(text)
}

// Whether the message is written so.
fn is_written_so(alloc: Global) -> Result<bool, TextError> {
    let text = text(alloc)?;
    let written = written(alloc, message(alloc)?)?;
    Ok(written.as_slice() == text.as_slice())
}

#[test]
fn it_is_written(rt: HostRuntime) -> Result<(), TextError> {
    assert!(rt; is_written_so(rt.alloc())?);
    Ok(())
}

// Whether a message has this acknowledgement alone.
fn has_acknowledgement(message: &Message) -> bool {
    let [block] = message.acks.as_slice() else {
        return false;
    };
    let AckKind::Ranges(ranges) = &block.kind else {
        return false;
    };
    let [range] = ranges.as_slice() else {
        return false;
    };
    (block.ident.as_slice() == IDENT) & (range.lower == 1) & (range.upper == 1) & !block.last
}

// Whether a message has these values, and is written so.
fn is_same(alloc: Global, message: Message, text: &[u8]) -> Result<bool, Memory> {
    let has_values = has_acknowledgement(&message) & matches!(message.body, Body::Empty);
    let written = written(alloc, message)?;
    Ok(has_values & (written.as_slice() == text))
}

// Whether the text is read as this message, and written as it came.
fn is_read_so(alloc: Global) -> Result<bool, Memory> {
    let text = text(alloc)?;
    match decode(alloc, text.as_slice()) {
        Ok(message) => is_same(alloc, message, text.as_slice()),
        Err(_) => Ok(false),
    }
}

#[test]
fn it_is_read(rt: HostRuntime) -> Result<(), Memory> {
    assert!(rt; is_read_so(rt.alloc())?);
    Ok(())
}
