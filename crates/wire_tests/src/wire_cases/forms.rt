//! What the tests share: envelopes in parts, what is read from them, and why they are refused.
use message_reader::decode;
use message_writer::encode;
use rm_base::{Blob, Memory};
use rm_message::{DecodeError, FaultKind, Message};
use std::alloc::Global;

/// The start tag of an envelope in the form that is written.
pub const START: &[u8] = b"<s:Envelope xmlns:s=\"http://www.w3.org/2003/05/soap-envelope\" \
    xmlns:a=\"http://www.w3.org/2005/08/addressing\" \
    xmlns:r=\"http://docs.oasis-open.org/ws-rx/wsrm/200702\" \
    xmlns:c=\"http://docs.oasis-open.org/ws-rx/wsmc/200702\">";

/// A message with a payload, a declaration and a comment.
pub const PAYLOAD: &[u8] = b"<?xml version=\"1.0\" encoding=\"UTF-8\"?><!-- x -->\
    <S:Envelope xmlns:S='http://www.w3.org/2003/05/soap-envelope' \
    xmlns:wsa=\"http://www.w3.org/2005/08/addressing\" xmlns:rm=\"http://docs.oasis-open.org/ws-rx/wsrm/200702\" \
    xmlns:o=\"urn:o\"><S:Header><wsa:Action S:mustUnderstand=\"1\">urn:buy&amp;sell</wsa:Action>\
    <rm:Sequence S:mustUnderstand=\"1\"><rm:Identifier>urn:q</rm:Identifier><rm:MessageNumber> 07 </rm:MessageNumber>\
    </rm:Sequence></S:Header><S:Body><o:x/></S:Body></S:Envelope>";

/// The envelope with these blocks and this between Body's tags, in the form that is written.
pub fn envelope(alloc: Global, blocks: &[u8], body: &[u8]) -> Result<Blob, Memory> {
    let mut text = Blob::from_slice(alloc, START)?;
    text.push_all(b"<s:Header>")?;
    text.push_all(blocks)?;
    text.push_all(b"</s:Header><s:Body>")?;
    text.push_all(body)?;
    text.push_all(b"</s:Body></s:Envelope>")?;
    Ok(text)
}

// How a message is written. No other function lets a message go, since the proof of that takes long.
fn written(alloc: Global, message: Message) -> Result<Blob, Memory> {
    encode(alloc, &message)
}

/// How a message is written, where one was read.
pub fn rewritten(
    alloc: Global,
    read: Result<Message, DecodeError>,
) -> Result<Option<Blob>, Memory> {
    match read {
        Ok(message) => Ok(Some(written(alloc, message)?)),
        Err(_) => Ok(None),
    }
}

/// Whether the document has the message that is written with these blocks and this body.
pub fn is_read(alloc: Global, document: &[u8], blocks: &[u8], body: &[u8]) -> Result<bool, Memory> {
    let text = envelope(alloc, blocks, body)?;
    match rewritten(alloc, decode(alloc, document))? {
        Some(written) => Ok(written.as_slice() == text.as_slice()),
        None => Ok(false),
    }
}

// Whether the bytes were refused for this.
fn is_refusal(error: &DecodeError, kind: FaultKind) -> bool {
    match error {
        DecodeError::Refused(refusal) => refusal.kind == kind,
        DecodeError::Memory => false,
    }
}

/// Whether bytes of which this was read were refused for this.
pub fn was_refused(read: Result<Message, DecodeError>, kind: FaultKind) -> bool {
    match read {
        Ok(_) => false,
        Err(error) => is_refusal(&error, kind),
    }
}

/// Whether a document is refused for this.
pub fn is_refused(alloc: Global, document: &[u8], kind: FaultKind) -> bool {
    was_refused(decode(alloc, document), kind)
}
