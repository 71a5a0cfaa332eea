//! The faults that refusals of each kind are answered with: SOAP 1.2 Part 1, section 5.4, WS-Addressing 1.0 SOAP
//! Binding, section 6, WS-ReliableMessaging 1.2, section 4, and WS-MakeConnection 1.1, section 4. The reasons are ours.
use crate::wire_texts::forms::{is_written, written};
use message_writer::fault_message;
use rm_base::{Blob, Ident, Memory, TextError, Uri};
use rm_message::elements::{AckBlock, AckKind, Ranges};
use rm_message::{FaultKind, Names, Refusal};
use rm_sides::ranges::Range;
use soap_document::profile::{Elements, Name, Shared};
use std::alloc::Global;
use wsa_headers::Epr;

// A kind, and the blocks and the body of its fault.
type Row = (FaultKind, &'static [u8], &'static [u8]);

// An endpoint without parameters.
fn endpoint(alloc: Global, address: &[u8]) -> Result<Epr, TextError> {
    Ok(Epr {
        address: Uri::from_slice(alloc, address)?,
        params: Elements::new(alloc),
    })
}

// The name h in this namespace.
fn name(alloc: Global, space: &[u8]) -> Result<Name, Memory> {
    let space = Shared::from_slice(alloc, space)?;
    Name::new(alloc, space, b"h")
}

// A name in a namespace, and one in none.
fn names(alloc: Global) -> Result<Names, Memory> {
    let mut names = Names::new(alloc);
    names.push(name(alloc, b"urn:x")?)?;
    names.push(name(alloc, b"")?)?;
    Ok(names)
}

// A refusal that relates to no message.
fn bare(alloc: Global, kind: FaultKind) -> Result<Refusal, TextError> {
    Ok(Refusal {
        kind,
        endpoint: endpoint(alloc, b"http://www.w3.org/2005/08/addressing/anonymous")?,
        relates: None,
        names: names(alloc)?,
        ident: None,
    })
}

// A refusal that relates to a message, and may speak of a sequence.
fn given(alloc: Global, kind: FaultKind, ident: Option<Ident>) -> Result<Refusal, TextError> {
    Ok(Refusal {
        kind,
        endpoint: endpoint(alloc, b"http://f.example/")?,
        relates: Some(Uri::from_slice(alloc, b"urn:m")?),
        names: names(alloc)?,
        ident,
    })
}

fn ranges(alloc: Global) -> Result<Ranges, Memory> {
    let mut ranges = Ranges::new(alloc);
    ranges.push(Range { lower: 1, upper: 2 })?;
    ranges.push(Range { lower: 9, upper: 9 })?;
    Ok(ranges)
}

fn acknowledgement(alloc: Global) -> Result<AckBlock, TextError> {
    Ok(AckBlock {
        ident: Ident::from_slice(alloc, b"urn:q")?,
        kind: AckKind::Ranges(ranges(alloc)?),
        last: true,
    })
}

// The acknowledgement that goes with a kind.
fn block(alloc: Global, kind: FaultKind) -> Result<Option<AckBlock>, TextError> {
    match kind {
        FaultKind::SequenceClosed | FaultKind::InvalidAcknowledgement => Ok(Some(acknowledgement(
            alloc,
        )?)),
        _ => Ok(None),
    }
}

// The text of the fault of a refusal, with this block.
fn text(alloc: Global, refusal: &Refusal, block: Option<AckBlock>) -> Result<Blob, Memory> {
    written(alloc, fault_message(alloc, refusal, block)?)
}

fn is_answer(alloc: Global, refusal: &Refusal, row: &Row) -> Result<bool, TextError> {
    let text = text(alloc, refusal, block(alloc, refusal.kind)?)?;
    Ok(is_written(alloc, text.as_slice(), row.1, row.2)?)
}

// The kinds 1 to 9, which relate to no message.
const WITHOUT_A_MESSAGE: [Row; 9] = [
    (
        FaultKind::TooLong,
        b"<a:To>http://www.w3.org/2005/08/addressing/anonymous</a:To><a:Action>\
        http://www.w3.org/2005/08/addressing/soap/fault</a:Action>",
        b"<s:Fault><s:Code><s:Value>s:Sender</s:Value></s:Code><s:Reason><s:Text xml:lang=\"en\">TooLong</s:Text>\
        </s:Reason></s:Fault>",
    ),
    (
        FaultKind::NotUtf8,
        b"<a:To>http://www.w3.org/2005/08/addressing/anonymous</a:To><a:Action>\
        http://www.w3.org/2005/08/addressing/soap/fault</a:Action>",
        b"<s:Fault><s:Code><s:Value>s:Sender</s:Value></s:Code><s:Reason><s:Text xml:lang=\"en\">NotUtf8</s:Text>\
        </s:Reason></s:Fault>",
    ),
    (
        FaultKind::NotProfile,
        b"<a:To>http://www.w3.org/2005/08/addressing/anonymous</a:To><a:Action>\
        http://www.w3.org/2005/08/addressing/soap/fault</a:Action>",
        b"<s:Fault><s:Code><s:Value>s:Sender</s:Value></s:Code><s:Reason><s:Text xml:lang=\"en\">NotProfile\
        </s:Text></s:Reason></s:Fault>",
    ),
    (
        FaultKind::WrongVersion,
        b"<a:To>http://www.w3.org/2005/08/addressing/anonymous</a:To><a:Action>\
        http://www.w3.org/2005/08/addressing/soap/fault</a:Action>",
        b"<s:Fault><s:Code><s:Value>s:VersionMismatch</s:Value></s:Code><s:Reason><s:Text xml:lang=\"en\">\
        WrongVersion</s:Text></s:Reason></s:Fault>",
    ),
    (
        FaultKind::NotEnvelope,
        b"<a:To>http://www.w3.org/2005/08/addressing/anonymous</a:To><a:Action>\
        http://www.w3.org/2005/08/addressing/soap/fault</a:Action>",
        b"<s:Fault><s:Code><s:Value>s:Sender</s:Value></s:Code><s:Reason><s:Text xml:lang=\"en\">NotEnvelope\
        </s:Text></s:Reason></s:Fault>",
    ),
    (
        FaultKind::NotUnderstood,
        b"<a:To>http://www.w3.org/2005/08/addressing/anonymous</a:To><a:Action>\
        http://www.w3.org/2005/08/addressing/soap/fault</a:Action><s:NotUnderstood qname=\"q:h\" \
        xmlns:q=\"urn:x\"/><s:NotUnderstood qname=\"h\"/>",
        b"<s:Fault><s:Code><s:Value>s:MustUnderstand</s:Value></s:Code><s:Reason><s:Text xml:lang=\"en\">\
        NotUnderstood</s:Text></s:Reason></s:Fault>",
    ),
    (
        FaultKind::Cardinality,
        b"<a:To>http://www.w3.org/2005/08/addressing/anonymous</a:To><a:Action>\
        http://www.w3.org/2005/08/addressing/fault</a:Action>",
        b"<s:Fault><s:Code><s:Value>s:Sender</s:Value><s:Subcode><s:Value \
        xmlns:q=\"http://www.w3.org/2005/08/addressing\">q:InvalidAddressingHeader</s:Value><s:Subcode><s:Value \
        xmlns:q=\"http://www.w3.org/2005/08/addressing\">q:InvalidCardinality</s:Value></s:Subcode></s:Subcode>\
        </s:Code><s:Reason><s:Text xml:lang=\"en\">Cardinality</s:Text></s:Reason></s:Fault>",
    ),
    (
        FaultKind::HeaderMissing,
        b"<a:To>http://www.w3.org/2005/08/addressing/anonymous</a:To><a:Action>\
        http://www.w3.org/2005/08/addressing/fault</a:Action>",
        b"<s:Fault><s:Code><s:Value>s:Sender</s:Value><s:Subcode><s:Value \
        xmlns:q=\"http://www.w3.org/2005/08/addressing\">q:MessageAddressingHeaderRequired</s:Value></s:Subcode>\
        </s:Code><s:Reason><s:Text xml:lang=\"en\">HeaderMissing</s:Text></s:Reason></s:Fault>",
    ),
    (
        FaultKind::BadHeader,
        b"<a:To>http://www.w3.org/2005/08/addressing/anonymous</a:To><a:Action>\
        http://www.w3.org/2005/08/addressing/fault</a:Action>",
        b"<s:Fault><s:Code><s:Value>s:Sender</s:Value><s:Subcode><s:Value \
        xmlns:q=\"http://www.w3.org/2005/08/addressing\">q:InvalidAddressingHeader</s:Value></s:Subcode></s:Code>\
        <s:Reason><s:Text xml:lang=\"en\">BadHeader</s:Text></s:Reason></s:Fault>",
    ),
];

fn is_bare_answer(alloc: Global, row: &Row) -> Result<bool, TextError> {
    let refusal = bare(alloc, row.0)?;
    is_answer(alloc, &refusal, row)
}

#[test]
fn kinds_without_a_message(rt: HostRuntime) -> Result<(), TextError> {
    for row in &WITHOUT_A_MESSAGE {
        assert!(rt; is_bare_answer(rt.alloc(), row)?, "{:?}", row.0);
    }
    Ok(())
}

// The kinds 10 to 20.
const OF_A_MESSAGE: [Row; 11] = [
    (
        FaultKind::Malformed,
        b"<a:To>http://f.example/</a:To><a:Action>http://www.w3.org/2005/08/addressing/soap/fault</a:Action>\
        <a:RelatesTo>urn:m</a:RelatesTo>",
        b"<s:Fault><s:Code><s:Value>s:Sender</s:Value></s:Code><s:Reason><s:Text xml:lang=\"en\">Malformed\
        </s:Text></s:Reason></s:Fault>",
    ),
    (
        FaultKind::Rollover,
        b"<a:To>http://f.example/</a:To><a:Action>http://docs.oasis-open.org/ws-rx/wsrm/200702/fault</a:Action>\
        <a:RelatesTo>urn:m</a:RelatesTo>",
        b"<s:Fault><s:Code><s:Value>s:Sender</s:Value><s:Subcode><s:Value \
        xmlns:q=\"http://docs.oasis-open.org/ws-rx/wsrm/200702\">q:MessageNumberRollover</s:Value></s:Subcode>\
        </s:Code><s:Reason><s:Text xml:lang=\"en\">Rollover</s:Text></s:Reason><s:Detail><n:Identifier \
        xmlns:n=\"http://docs.oasis-open.org/ws-rx/wsrm/200702\">urn:q</n:Identifier><n:MaxMessageNumber \
        xmlns:n=\"http://docs.oasis-open.org/ws-rx/wsrm/200702\">9223372036854775807</n:MaxMessageNumber>\
        </s:Detail></s:Fault>",
    ),
    (
        FaultKind::WsrmRequired,
        b"<a:To>http://f.example/</a:To><a:Action>http://docs.oasis-open.org/ws-rx/wsrm/200702/fault</a:Action>\
        <a:RelatesTo>urn:m</a:RelatesTo>",
        b"<s:Fault><s:Code><s:Value>s:Sender</s:Value><s:Subcode><s:Value \
        xmlns:q=\"http://docs.oasis-open.org/ws-rx/wsrm/200702\">q:WSRMRequired</s:Value></s:Subcode></s:Code>\
        <s:Reason><s:Text xml:lang=\"en\">WsrmRequired</s:Text></s:Reason></s:Fault>",
    ),
    (
        FaultKind::UnknownSequence,
        b"<a:To>http://f.example/</a:To><a:Action>http://docs.oasis-open.org/ws-rx/wsrm/200702/fault</a:Action>\
        <a:RelatesTo>urn:m</a:RelatesTo>",
        b"<s:Fault><s:Code><s:Value>s:Sender</s:Value><s:Subcode><s:Value \
        xmlns:q=\"http://docs.oasis-open.org/ws-rx/wsrm/200702\">q:UnknownSequence</s:Value></s:Subcode></s:Code>\
        <s:Reason><s:Text xml:lang=\"en\">UnknownSequence</s:Text></s:Reason><s:Detail><n:Identifier \
        xmlns:n=\"http://docs.oasis-open.org/ws-rx/wsrm/200702\">urn:q</n:Identifier></s:Detail></s:Fault>",
    ),
    (
        FaultKind::SequenceTerminated,
        b"<a:To>http://f.example/</a:To><a:Action>http://docs.oasis-open.org/ws-rx/wsrm/200702/fault</a:Action>\
        <a:RelatesTo>urn:m</a:RelatesTo>",
        b"<s:Fault><s:Code><s:Value>s:Sender</s:Value><s:Subcode><s:Value \
        xmlns:q=\"http://docs.oasis-open.org/ws-rx/wsrm/200702\">q:SequenceTerminated</s:Value></s:Subcode>\
        </s:Code><s:Reason><s:Text xml:lang=\"en\">SequenceTerminated</s:Text></s:Reason><s:Detail><n:Identifier \
        xmlns:n=\"http://docs.oasis-open.org/ws-rx/wsrm/200702\">urn:q</n:Identifier></s:Detail></s:Fault>",
    ),
    (
        FaultKind::SequenceClosed,
        b"<a:To>http://f.example/</a:To><a:Action>http://docs.oasis-open.org/ws-rx/wsrm/200702/fault</a:Action>\
        <a:RelatesTo>urn:m</a:RelatesTo><r:SequenceAcknowledgement><r:Identifier>urn:q</r:Identifier>\
        <r:AcknowledgementRange Lower=\"1\" Upper=\"2\"/><r:AcknowledgementRange Lower=\"9\" Upper=\"9\"/>\
        <r:Final/></r:SequenceAcknowledgement>",
        b"<s:Fault><s:Code><s:Value>s:Sender</s:Value><s:Subcode><s:Value \
        xmlns:q=\"http://docs.oasis-open.org/ws-rx/wsrm/200702\">q:SequenceClosed</s:Value></s:Subcode></s:Code>\
        <s:Reason><s:Text xml:lang=\"en\">SequenceClosed</s:Text></s:Reason><s:Detail><n:Identifier \
        xmlns:n=\"http://docs.oasis-open.org/ws-rx/wsrm/200702\">urn:q</n:Identifier></s:Detail></s:Fault>",
    ),
    (
        FaultKind::InvalidAcknowledgement,
        b"<a:To>http://f.example/</a:To><a:Action>http://docs.oasis-open.org/ws-rx/wsrm/200702/fault</a:Action>\
        <a:RelatesTo>urn:m</a:RelatesTo>",
        b"<s:Fault><s:Code><s:Value>s:Sender</s:Value><s:Subcode><s:Value \
        xmlns:q=\"http://docs.oasis-open.org/ws-rx/wsrm/200702\">q:InvalidAcknowledgement</s:Value></s:Subcode>\
        </s:Code><s:Reason><s:Text xml:lang=\"en\">InvalidAcknowledgement</s:Text></s:Reason><s:Detail>\
        <n:SequenceAcknowledgement xmlns:n=\"http://docs.oasis-open.org/ws-rx/wsrm/200702\"><n:Identifier \
        xmlns:n=\"http://docs.oasis-open.org/ws-rx/wsrm/200702\">urn:q</n:Identifier><n:AcknowledgementRange \
        xmlns:n=\"http://docs.oasis-open.org/ws-rx/wsrm/200702\" Lower=\"1\" Upper=\"2\"></n:AcknowledgementRange>\
        <n:AcknowledgementRange xmlns:n=\"http://docs.oasis-open.org/ws-rx/wsrm/200702\" Lower=\"9\" Upper=\"9\">\
        </n:AcknowledgementRange><n:Final xmlns:n=\"http://docs.oasis-open.org/ws-rx/wsrm/200702\"></n:Final>\
        </n:SequenceAcknowledgement></s:Detail></s:Fault>",
    ),
    (
        FaultKind::CreateSequenceRefused,
        b"<a:To>http://f.example/</a:To><a:Action>http://docs.oasis-open.org/ws-rx/wsrm/200702/fault</a:Action>\
        <a:RelatesTo>urn:m</a:RelatesTo>",
        b"<s:Fault><s:Code><s:Value>s:Receiver</s:Value><s:Subcode><s:Value \
        xmlns:q=\"http://docs.oasis-open.org/ws-rx/wsrm/200702\">q:CreateSequenceRefused</s:Value></s:Subcode>\
        </s:Code><s:Reason><s:Text xml:lang=\"en\">CreateSequenceRefused</s:Text></s:Reason></s:Fault>",
    ),
    (
        FaultKind::MissingSelection,
        b"<a:To>http://f.example/</a:To><a:Action>http://docs.oasis-open.org/ws-rx/wsmc/200702/fault</a:Action>\
        <a:RelatesTo>urn:m</a:RelatesTo>",
        b"<s:Fault><s:Code><s:Value>s:Receiver</s:Value><s:Subcode><s:Value \
        xmlns:q=\"http://docs.oasis-open.org/ws-rx/wsmc/200702\">q:MissingSelection</s:Value></s:Subcode></s:Code>\
        <s:Reason><s:Text xml:lang=\"en\">MissingSelection</s:Text></s:Reason></s:Fault>",
    ),
    (
        FaultKind::UnsupportedSelection,
        b"<a:To>http://f.example/</a:To><a:Action>http://docs.oasis-open.org/ws-rx/wsmc/200702/fault</a:Action>\
        <a:RelatesTo>urn:m</a:RelatesTo>",
        b"<s:Fault><s:Code><s:Value>s:Receiver</s:Value><s:Subcode><s:Value \
        xmlns:q=\"http://docs.oasis-open.org/ws-rx/wsmc/200702\">q:UnsupportedSelection</s:Value></s:Subcode>\
        </s:Code><s:Reason><s:Text xml:lang=\"en\">UnsupportedSelection</s:Text></s:Reason></s:Fault>",
    ),
    (
        FaultKind::StoreFull,
        b"<a:To>http://f.example/</a:To><a:Action>http://www.w3.org/2005/08/addressing/soap/fault</a:Action>\
        <a:RelatesTo>urn:m</a:RelatesTo>",
        b"<s:Fault><s:Code><s:Value>s:Receiver</s:Value></s:Code><s:Reason><s:Text xml:lang=\"en\">StoreFull\
        </s:Text></s:Reason></s:Fault>",
    ),
];

fn is_given_answer(alloc: Global, row: &Row) -> Result<bool, TextError> {
    let ident = Ident::from_slice(alloc, b"urn:q")?;
    let refusal = given(alloc, row.0, Some(ident))?;
    is_answer(alloc, &refusal, row)
}

#[test]
fn kinds_of_a_message(rt: HostRuntime) -> Result<(), TextError> {
    for row in &OF_A_MESSAGE {
        assert!(rt; is_given_answer(rt.alloc(), row)?, "{:?}", row.0);
    }
    Ok(())
}

// An unknown sequence that no Sequence, Close or Terminate names.
const NAMELESS: Row = (
    FaultKind::UnknownSequence,
    b"<a:To>http://f.example/</a:To><a:Action>http://docs.oasis-open.org/ws-rx/wsrm/200702/fault</a:Action>\
    <a:RelatesTo>urn:m</a:RelatesTo>",
    b"<s:Fault><s:Code><s:Value>s:Sender</s:Value><s:Subcode><s:Value \
    xmlns:q=\"http://docs.oasis-open.org/ws-rx/wsrm/200702\">q:UnknownSequence</s:Value></s:Subcode></s:Code>\
    <s:Reason><s:Text xml:lang=\"en\">UnknownSequence</s:Text></s:Reason></s:Fault>",
);

fn is_nameless_answer(alloc: Global, row: &Row) -> Result<bool, TextError> {
    let refusal = given(alloc, row.0, None)?;
    is_answer(alloc, &refusal, row)
}

#[test]
fn of_no_sequence(rt: HostRuntime) -> Result<(), TextError> {
    assert!(rt; is_nameless_answer(rt.alloc(), &NAMELESS)?);
    Ok(())
}
