//! What the tests share: envelopes in parts, and what is read from them.
use message_reader::decode;
use message_writer::encode;
use rm_base::{Blob, Memory};
use rm_message::Message;
use std::alloc::Global;

/// The start tag of an envelope in the form that is written.
pub const START: &[u8] = b"<s:Envelope xmlns:s=\"http://www.w3.org/2003/05/soap-envelope\" \
    xmlns:a=\"http://www.w3.org/2005/08/addressing\" \
    xmlns:r=\"http://docs.oasis-open.org/ws-rx/wsrm/200702\" \
    xmlns:c=\"http://docs.oasis-open.org/ws-rx/wsmc/200702\">";

/// The blocks that an envelope with the Action urn:x and no other block is written with.
pub const BARE: &[u8] =
    b"<a:To>http://www.w3.org/2005/08/addressing/anonymous</a:To><a:Action>urn:x</a:Action>";

/// The envelope with these blocks and this between Body's tags, in the form that is written.
pub fn envelope(alloc: Global, blocks: &[u8], body: &[u8]) -> Result<Blob, Memory> {
    let mut text = Blob::from_slice(alloc, START)?;
    text.push_all(b"<s:Header>")?;
    text.push_all(blocks)?;
    text.push_all(b"</s:Header><s:Body>")?;
    text.push_all(body)?;
    text.push_all(b"</s:Body></s:Envelope>")?;
    Ok(text)
}

/// Whether a text is the envelope with these blocks and this body, in the form that is written.
pub fn is_written(alloc: Global, text: &[u8], blocks: &[u8], body: &[u8]) -> Result<bool, Memory> {
    let written = envelope(alloc, blocks, body)?;
    Ok(written.as_slice() == text)
}

/// How a message is written. No other function lets a message go, since the proof of that takes long.
pub fn written(alloc: Global, message: Message) -> Result<Blob, Memory> {
    encode(alloc, &message)
}

// How the message of a document is written, where it has one.
fn rewritten(alloc: Global, document: &[u8]) -> Result<Option<Blob>, Memory> {
    match decode(alloc, document) {
        Ok(message) => Ok(Some(written(alloc, message)?)),
        Err(_) => Ok(None),
    }
}

/// What a document is named, its bytes, and the blocks and the body that its message is written with.
pub type Document = (&'static str, &'static [u8], &'static [u8], &'static [u8]);

/// Whether a document has the message that is written so.
pub fn is_read(alloc: Global, row: &Document) -> Result<bool, Memory> {
    match rewritten(alloc, row.1)? {
        Some(text) => is_written(alloc, text.as_slice(), row.2, row.3),
        None => Ok(false),
    }
}

/// What an envelope is named, its blocks and its body, and the blocks and the body that its message is written with.
pub type Framed = (
    &'static str,
    &'static [u8],
    &'static [u8],
    &'static [u8],
    &'static [u8],
);

/// Whether an envelope has the message that is written so.
pub fn is_read_in_frame(alloc: Global, row: &Framed) -> Result<bool, Memory> {
    let document = envelope(alloc, row.1, row.2)?;
    match rewritten(alloc, document.as_slice())? {
        Some(text) => is_written(alloc, text.as_slice(), row.3, row.4),
        None => Ok(false),
    }
}

/// What a message is named, and its blocks and its body in the form that is written.
pub type Same = (&'static str, &'static [u8], &'static [u8]);

/// Whether an envelope has a message that is written as it came.
pub fn is_kept(alloc: Global, row: &Same) -> Result<bool, Memory> {
    let document = envelope(alloc, row.1, row.2)?;
    match rewritten(alloc, document.as_slice())? {
        Some(text) => Ok(text.as_slice() == document.as_slice()),
        None => Ok(false),
    }
}
