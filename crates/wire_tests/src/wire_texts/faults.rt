//! The faults that documents are answered with which are no message: where they go, and what they relate to.
use crate::wire_texts::forms::{Document, Framed, envelope, is_written, written};
use message_reader::decode;
use message_writer::fault_message;
use rm_base::{Blob, Memory};
use rm_message::{DecodeError, Refusal};
use std::alloc::Global;

// The text of the fault that a refusal is answered with.
fn fault(alloc: Global, refusal: &Refusal) -> Result<Blob, Memory> {
    written(alloc, fault_message(alloc, refusal, None)?)
}

// Whether a refusal is answered with the fault with these blocks and this body.
fn is_answer(alloc: Global, refusal: &Refusal, blocks: &[u8], body: &[u8]) -> Result<bool, Memory> {
    let text = fault(alloc, refusal)?;
    is_written(alloc, text.as_slice(), blocks, body)
}

// Whether bytes that were not decoded are refused, and that is answered so.
fn is_refusal(
    alloc: Global,
    error: &DecodeError,
    blocks: &[u8],
    body: &[u8],
) -> Result<bool, Memory> {
    match error {
        DecodeError::Refused(refusal) => is_answer(alloc, refusal, blocks, body),
        DecodeError::Memory => Ok(false),
    }
}

// Whether a document is answered with the fault with these blocks and this body.
fn is_answered(alloc: Global, document: &[u8], blocks: &[u8], body: &[u8]) -> Result<bool, Memory> {
    match decode(alloc, document) {
        Ok(_) => Ok(false),
        Err(error) => is_refusal(alloc, &error, blocks, body),
    }
}

fn is_document_answered(alloc: Global, row: &Document) -> Result<bool, Memory> {
    is_answered(alloc, row.1, row.2, row.3)
}

fn is_frame_answered(alloc: Global, row: &Framed) -> Result<bool, Memory> {
    let document = envelope(alloc, row.1, row.2)?;
    is_answered(alloc, document.as_slice(), row.3, row.4)
}

// A character, and spaces behind it: 2097153 bytes.
fn too_long(alloc: Global) -> Result<Blob, Memory> {
    let mut text = Blob::from_slice(alloc, b"<")?;
    for _ in 0..2097152 {
        text.push_all(b" ")?;
    }
    Ok(text)
}

const TOO_LONG: Document = (
    "too long",
    b"",
    b"<a:To>http://www.w3.org/2005/08/addressing/anonymous</a:To><a:Action>\
    http://www.w3.org/2005/08/addressing/soap/fault</a:Action>",
    b"<s:Fault><s:Code><s:Value>s:Sender</s:Value></s:Code><s:Reason><s:Text xml:lang=\"en\">TooLong</s:Text>\
    </s:Reason></s:Fault>",
);

fn is_too_long_answered(alloc: Global, row: &Document) -> Result<bool, Memory> {
    let text = too_long(alloc)?;
    is_answered(alloc, text.as_slice(), row.2, row.3)
}

#[test]
fn of_too_many_bytes(rt: HostRuntime) -> Result<(), Memory> {
    assert!(rt; is_too_long_answered(rt.alloc(), &TOO_LONG)?);
    Ok(())
}

const DOCUMENTS: [Document; 6] = [
    (
        "no UTF-8",
        b"<\xff",
        b"<a:To>http://www.w3.org/2005/08/addressing/anonymous</a:To><a:Action>\
        http://www.w3.org/2005/08/addressing/soap/fault</a:Action>",
        b"<s:Fault><s:Code><s:Value>s:Sender</s:Value></s:Code><s:Reason><s:Text xml:lang=\"en\">NotUtf8</s:Text>\
        </s:Reason></s:Fault>",
    ),
    (
        "a document type",
        b"<!DOCTYPE a><a/>",
        b"<a:To>http://www.w3.org/2005/08/addressing/anonymous</a:To><a:Action>\
        http://www.w3.org/2005/08/addressing/soap/fault</a:Action>",
        b"<s:Fault><s:Code><s:Value>s:Sender</s:Value></s:Code><s:Reason><s:Text xml:lang=\"en\">NotProfile\
        </s:Text></s:Reason></s:Fault>",
    ),
    (
        "SOAP 1.1",
        b"<Envelope xmlns=\"http://schemas.xmlsoap.org/soap/envelope/\"><Body/></Envelope>",
        b"<a:To>http://www.w3.org/2005/08/addressing/anonymous</a:To><a:Action>\
        http://www.w3.org/2005/08/addressing/soap/fault</a:Action>",
        b"<s:Fault><s:Code><s:Value>s:VersionMismatch</s:Value></s:Code><s:Reason><s:Text xml:lang=\"en\">\
        WrongVersion</s:Text></s:Reason></s:Fault>",
    ),
    (
        "another root",
        b"<a/>",
        b"<a:To>http://www.w3.org/2005/08/addressing/anonymous</a:To><a:Action>\
        http://www.w3.org/2005/08/addressing/soap/fault</a:Action>",
        b"<s:Fault><s:Code><s:Value>s:Sender</s:Value></s:Code><s:Reason><s:Text xml:lang=\"en\">NotEnvelope\
        </s:Text></s:Reason></s:Fault>",
    ),
    (
        "no Header",
        b"<Envelope xmlns='http://www.w3.org/2003/05/soap-envelope'><Body/></Envelope>",
        b"<a:To>http://www.w3.org/2005/08/addressing/anonymous</a:To><a:Action>\
        http://www.w3.org/2005/08/addressing/fault</a:Action>",
        b"<s:Fault><s:Code><s:Value>s:Sender</s:Value><s:Subcode><s:Value \
        xmlns:q=\"http://www.w3.org/2005/08/addressing\">q:MessageAddressingHeaderRequired</s:Value></s:Subcode>\
        </s:Code><s:Reason><s:Text xml:lang=\"en\">HeaderMissing</s:Text></s:Reason></s:Fault>",
    ),
    (
        "an empty Header",
        b"<e:Envelope xmlns:e='http://www.w3.org/2003/05/soap-envelope'><e:Header/><e:Body><o/></e:Body>\
        </e:Envelope>",
        b"<a:To>http://www.w3.org/2005/08/addressing/anonymous</a:To><a:Action>\
        http://www.w3.org/2005/08/addressing/fault</a:Action>",
        b"<s:Fault><s:Code><s:Value>s:Sender</s:Value><s:Subcode><s:Value \
        xmlns:q=\"http://www.w3.org/2005/08/addressing\">q:MessageAddressingHeaderRequired</s:Value></s:Subcode>\
        </s:Code><s:Reason><s:Text xml:lang=\"en\">HeaderMissing</s:Text></s:Reason></s:Fault>",
    ),
];

#[test]
fn of_documents(rt: HostRuntime) -> Result<(), Memory> {
    for row in &DOCUMENTS {
        assert!(rt; is_document_answered(rt.alloc(), row)?, "{}", row.0);
    }
    Ok(())
}

const FRAMES: [Framed; 11] = [
    (
        "headers that are not understood, in their order",
        b"<a:MessageID>urn:m</a:MessageID><a:FaultTo><a:Address>http://f.example/</a:Address>\
        <a:ReferenceParameters><x:k xmlns:x='urn:x' w='1'>2</x:k><a:To>3</a:To></a:ReferenceParameters>\
        </a:FaultTo><x:h xmlns:x='urn:x' s:mustUnderstand=' 1 '/><a:Action>urn:x</a:Action><x:i xmlns:x='urn:x'/>\
        <w:Security xmlns:w='http://docs.oasis-open.org/wss/2004/01/oasis-200401-wss-wssecurity-secext-1.0.xsd' \
        s:mustUnderstand='1'><w:UsernameToken/></w:Security><xml:h s:mustUnderstand='true'/><h \
        s:mustUnderstand='true' s:role='http://www.w3.org/2003/05/soap-envelope/role/next'/><x:h xmlns:x='urn:x' \
        s:mustUnderstand='1' s:role='http://www.w3.org/2003/05/soap-envelope/role/ultimateReceiver'/>",
        b"<o/>",
        b"<a:To>http://www.w3.org/2005/08/addressing/anonymous</a:To><a:Action>\
        http://www.w3.org/2005/08/addressing/soap/fault</a:Action><s:NotUnderstood qname=\"q:h\" \
        xmlns:q=\"urn:x\"/><s:NotUnderstood qname=\"q:Security\" \
        xmlns:q=\"http://docs.oasis-open.org/wss/2004/01/oasis-200401-wss-wssecurity-secext-1.0.xsd\"/>\
        <s:NotUnderstood qname=\"xml:h\"/><s:NotUnderstood qname=\"h\"/><s:NotUnderstood qname=\"q:h\" \
        xmlns:q=\"urn:x\"/>",
        b"<s:Fault><s:Code><s:Value>s:MustUnderstand</s:Value></s:Code><s:Reason><s:Text xml:lang=\"en\">\
        NotUnderstood</s:Text></s:Reason></s:Fault>",
    ),
    (
        "two ReplyTo",
        b"<a:MessageID>urn:m</a:MessageID><a:Action>urn:x</a:Action><a:ReplyTo><a:Address>http://r.example/\
        </a:Address></a:ReplyTo><a:ReplyTo><a:Address>http://r.example/</a:Address></a:ReplyTo><a:FaultTo>\
        <a:Address>http://f.example/</a:Address><a:ReferenceParameters><x:k xmlns:x='urn:x' w='1'>2</x:k><a:To>3\
        </a:To></a:ReferenceParameters></a:FaultTo>",
        b"",
        b"<a:To>http://www.w3.org/2005/08/addressing/anonymous</a:To><a:Action>\
        http://www.w3.org/2005/08/addressing/fault</a:Action>",
        b"<s:Fault><s:Code><s:Value>s:Sender</s:Value><s:Subcode><s:Value \
        xmlns:q=\"http://www.w3.org/2005/08/addressing\">q:InvalidAddressingHeader</s:Value><s:Subcode><s:Value \
        xmlns:q=\"http://www.w3.org/2005/08/addressing\">q:InvalidCardinality</s:Value></s:Subcode></s:Subcode>\
        </s:Code><s:Reason><s:Text xml:lang=\"en\">Cardinality</s:Text></s:Reason></s:Fault>",
    ),
    (
        "no block",
        b"",
        b"",
        b"<a:To>http://www.w3.org/2005/08/addressing/anonymous</a:To><a:Action>\
        http://www.w3.org/2005/08/addressing/fault</a:Action>",
        b"<s:Fault><s:Code><s:Value>s:Sender</s:Value><s:Subcode><s:Value \
        xmlns:q=\"http://www.w3.org/2005/08/addressing\">q:MessageAddressingHeaderRequired</s:Value></s:Subcode>\
        </s:Code><s:Reason><s:Text xml:lang=\"en\">HeaderMissing</s:Text></s:Reason></s:Fault>",
    ),
    (
        "CreateSequence without MessageID",
        b"<a:Action>http://docs.oasis-open.org/ws-rx/wsrm/200702/CreateSequence</a:Action><a:FaultTo><a:Address>\
        http://f.example/</a:Address><a:ReferenceParameters><x:k xmlns:x='urn:x' w='1'>2</x:k><a:To>3</a:To>\
        </a:ReferenceParameters></a:FaultTo>",
        b"<r:CreateSequence/>",
        b"<a:To>http://www.w3.org/2005/08/addressing/anonymous</a:To><a:Action>\
        http://www.w3.org/2005/08/addressing/fault</a:Action>",
        b"<s:Fault><s:Code><s:Value>s:Sender</s:Value><s:Subcode><s:Value \
        xmlns:q=\"http://www.w3.org/2005/08/addressing\">q:MessageAddressingHeaderRequired</s:Value></s:Subcode>\
        </s:Code><s:Reason><s:Text xml:lang=\"en\">HeaderMissing</s:Text></s:Reason></s:Fault>",
    ),
    (
        "an address that is none",
        b"<a:MessageID>urn:m</a:MessageID><a:Action>urn:x</a:Action><a:FaultTo><a:Address>http://f.example/\
        </a:Address><a:ReferenceParameters><x:k xmlns:x='urn:x' w='1'>2</x:k><a:To>3</a:To>\
        </a:ReferenceParameters></a:FaultTo><a:ReplyTo/>",
        b"",
        b"<a:To>http://www.w3.org/2005/08/addressing/anonymous</a:To><a:Action>\
        http://www.w3.org/2005/08/addressing/fault</a:Action>",
        b"<s:Fault><s:Code><s:Value>s:Sender</s:Value><s:Subcode><s:Value \
        xmlns:q=\"http://www.w3.org/2005/08/addressing\">q:InvalidAddressingHeader</s:Value></s:Subcode></s:Code>\
        <s:Reason><s:Text xml:lang=\"en\">BadHeader</s:Text></s:Reason></s:Fault>",
    ),
    (
        "to FaultTo with its parameters",
        b"<r:AckRequested/><a:ReplyTo><a:Address>http://r.example/</a:Address></a:ReplyTo><a:FaultTo><a:Address>\
        http://f.example/</a:Address><a:ReferenceParameters><x:k xmlns:x='urn:x' w='1'>2</x:k><a:To>3</a:To>\
        </a:ReferenceParameters></a:FaultTo><a:MessageID>urn:m</a:MessageID><a:Action>urn:x</a:Action>",
        b"",
        b"<a:To>http://f.example/</a:To><a:Action>http://www.w3.org/2005/08/addressing/soap/fault</a:Action>\
        <a:RelatesTo>urn:m</a:RelatesTo><n:k xmlns:n=\"urn:x\" a:IsReferenceParameter=\"true\" w=\"1\">2</n:k>\
        <n:To xmlns:n=\"http://www.w3.org/2005/08/addressing\" a:IsReferenceParameter=\"true\">3</n:To>",
        b"<s:Fault><s:Code><s:Value>s:Sender</s:Value></s:Code><s:Reason><s:Text xml:lang=\"en\">Malformed\
        </s:Text></s:Reason></s:Fault>",
    ),
    (
        "to ReplyTo",
        b"<a:MessageID>urn:m</a:MessageID><a:Action>urn:x</a:Action><a:ReplyTo><a:Address>http://r.example/\
        </a:Address></a:ReplyTo><r:AckRequested/>",
        b"",
        b"<a:To>http://r.example/</a:To><a:Action>http://www.w3.org/2005/08/addressing/soap/fault</a:Action>\
        <a:RelatesTo>urn:m</a:RelatesTo>",
        b"<s:Fault><s:Code><s:Value>s:Sender</s:Value></s:Code><s:Reason><s:Text xml:lang=\"en\">Malformed\
        </s:Text></s:Reason></s:Fault>",
    ),
    (
        "to Anonymous",
        b"<a:MessageID>urn:m</a:MessageID><a:Action>urn:x</a:Action><r:AckRequested/>",
        b"",
        b"<a:To>http://www.w3.org/2005/08/addressing/anonymous</a:To><a:Action>\
        http://www.w3.org/2005/08/addressing/soap/fault</a:Action><a:RelatesTo>urn:m</a:RelatesTo>",
        b"<s:Fault><s:Code><s:Value>s:Sender</s:Value></s:Code><s:Reason><s:Text xml:lang=\"en\">Malformed\
        </s:Text></s:Reason></s:Fault>",
    ),
    (
        "without MessageID",
        b"<a:Action>urn:x</a:Action><r:AckRequested/>",
        b"",
        b"<a:To>http://www.w3.org/2005/08/addressing/anonymous</a:To><a:Action>\
        http://www.w3.org/2005/08/addressing/soap/fault</a:Action>",
        b"<s:Fault><s:Code><s:Value>s:Sender</s:Value></s:Code><s:Reason><s:Text xml:lang=\"en\">Malformed\
        </s:Text></s:Reason></s:Fault>",
    ),
    (
        "a number past the greatest",
        b"<r:Sequence><r:Identifier> urn:s </r:Identifier><r:MessageNumber>9223372036854775808</r:MessageNumber>\
        </r:Sequence><a:MessageID>urn:m</a:MessageID><a:Action>urn:x</a:Action><a:FaultTo><a:Address>\
        http://f.example/</a:Address><a:ReferenceParameters><x:k xmlns:x='urn:x' w='1'>2</x:k><a:To>3</a:To>\
        </a:ReferenceParameters></a:FaultTo><a:ReplyTo><a:Address>http://r.example/</a:Address></a:ReplyTo>",
        b"<o/>",
        b"<a:To>http://f.example/</a:To><a:Action>http://docs.oasis-open.org/ws-rx/wsrm/200702/fault</a:Action>\
        <a:RelatesTo>urn:m</a:RelatesTo><n:k xmlns:n=\"urn:x\" a:IsReferenceParameter=\"true\" w=\"1\">2</n:k>\
        <n:To xmlns:n=\"http://www.w3.org/2005/08/addressing\" a:IsReferenceParameter=\"true\">3</n:To>",
        b"<s:Fault><s:Code><s:Value>s:Sender</s:Value><s:Subcode><s:Value \
        xmlns:q=\"http://docs.oasis-open.org/ws-rx/wsrm/200702\">q:MessageNumberRollover</s:Value></s:Subcode>\
        </s:Code><s:Reason><s:Text xml:lang=\"en\">Rollover</s:Text></s:Reason><s:Detail><n:Identifier \
        xmlns:n=\"http://docs.oasis-open.org/ws-rx/wsrm/200702\">urn:s</n:Identifier><n:MaxMessageNumber \
        xmlns:n=\"http://docs.oasis-open.org/ws-rx/wsrm/200702\">9223372036854775807</n:MaxMessageNumber>\
        </s:Detail></s:Fault>",
    ),
    (
        "and without MessageID",
        b"<r:Sequence><r:Identifier> urn:s </r:Identifier><r:MessageNumber>9223372036854775808</r:MessageNumber>\
        </r:Sequence><a:Action>urn:x</a:Action><a:ReplyTo><a:Address>http://r.example/</a:Address></a:ReplyTo>",
        b"<o/>",
        b"<a:To>http://r.example/</a:To><a:Action>http://docs.oasis-open.org/ws-rx/wsrm/200702/fault</a:Action>",
        b"<s:Fault><s:Code><s:Value>s:Sender</s:Value><s:Subcode><s:Value \
        xmlns:q=\"http://docs.oasis-open.org/ws-rx/wsrm/200702\">q:MessageNumberRollover</s:Value></s:Subcode>\
        </s:Code><s:Reason><s:Text xml:lang=\"en\">Rollover</s:Text></s:Reason><s:Detail><n:Identifier \
        xmlns:n=\"http://docs.oasis-open.org/ws-rx/wsrm/200702\">urn:s</n:Identifier><n:MaxMessageNumber \
        xmlns:n=\"http://docs.oasis-open.org/ws-rx/wsrm/200702\">9223372036854775807</n:MaxMessageNumber>\
        </s:Detail></s:Fault>",
    ),
];

#[test]
fn of_envelopes(rt: HostRuntime) -> Result<(), Memory> {
    for row in &FRAMES {
        assert!(rt; is_frame_answered(rt.alloc(), row)?, "{}", row.0);
    }
    Ok(())
}
