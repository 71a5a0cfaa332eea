//! Envelopes as peers write them, and as a node writes them.
use rm_base::{Blob, Memory};
use std::alloc::Global;

/// The start tag of an envelope in the form that is written.
pub(crate) const START: &[u8] = b"<s:Envelope xmlns:s=\"http://www.w3.org/2003/05/soap-envelope\" \
    xmlns:a=\"http://www.w3.org/2005/08/addressing\" \
    xmlns:r=\"http://docs.oasis-open.org/ws-rx/wsrm/200702\" \
    xmlns:c=\"http://docs.oasis-open.org/ws-rx/wsmc/200702\">";

/// The first identifier that node 1 issues, and the one that node 2 does.
pub(crate) const FIRST_OF_1: &[u8] = b"urn:uuid:00000000-0000-8001-8000-000000000001";

pub(crate) const FIRST_OF_2: &[u8] = b"urn:uuid:00000000-0000-8002-8000-000000000001";

/// These pieces, one behind the other.
pub(crate) fn joined(alloc: Global, pieces: &[&[u8]]) -> Result<Blob, Memory> {
    let mut text = Blob::new(alloc);
    for piece in pieces {
        text.push_all(piece)?;
    }
    Ok(text)
}

/// The envelope with these blocks and this between Body's tags, in the form that is written.
pub(crate) fn envelope(alloc: Global, blocks: &[u8], body: &[u8]) -> Result<Blob, Memory> {
    joined(
        alloc,
        &[
            START,
            b"<s:Header>",
            blocks,
            b"</s:Header><s:Body>",
            body,
            b"</s:Body></s:Envelope>",
        ],
    )
}

/// A request for a sequence with this message id, by a peer at `http://node1.example/`. What stands behind AcksTo is
/// given.
pub(crate) fn request(alloc: Global, id: &[u8], more: &[u8]) -> Result<Blob, Memory> {
    let blocks = joined(
        alloc,
        &[
            b"<a:To>http://node2.example/</a:To>\
              <a:Action>http://docs.oasis-open.org/ws-rx/wsrm/200702/CreateSequence</a:Action><a:MessageID>",
            id,
            b"</a:MessageID><a:ReplyTo><a:Address>http://node1.example/</a:Address></a:ReplyTo>",
        ],
    )?;
    let body = joined(
        alloc,
        &[
            b"<r:CreateSequence><r:AcksTo><a:Address>http://node1.example/</a:Address></r:AcksTo>",
            more,
            b"</r:CreateSequence>",
        ],
    )?;
    envelope(alloc, blocks.as_slice(), body.as_slice())
}

/// The response that grants the identifier for the request with this message id.
pub(crate) fn response(alloc: Global, id: &[u8], ident: &[u8]) -> Result<Blob, Memory> {
    let blocks = joined(
        alloc,
        &[
            b"<a:To>http://node1.example/</a:To>\
              <a:Action>http://docs.oasis-open.org/ws-rx/wsrm/200702/CreateSequenceResponse</a:Action><a:RelatesTo>",
            id,
            b"</a:RelatesTo>",
        ],
    )?;
    let body = joined(
        alloc,
        &[
            b"<r:CreateSequenceResponse><r:Identifier>",
            ident,
            b"</r:Identifier></r:CreateSequenceResponse>",
        ],
    )?;
    envelope(alloc, blocks.as_slice(), body.as_slice())
}

/// An acknowledgement for node 1, with this block.
pub(crate) fn acknowledgement(alloc: Global, block: &[u8]) -> Result<Blob, Memory> {
    let blocks = joined(
        alloc,
        &[
            b"<a:To>http://node1.example/</a:To>\
              <a:Action>http://docs.oasis-open.org/ws-rx/wsrm/200702/SequenceAcknowledgement</a:Action>",
            block,
        ],
    )?;
    envelope(alloc, blocks.as_slice(), b"")
}

/// A message that another stack wrote, of this sequence, with this number as it is written and this further block.
pub(crate) fn message(
    alloc: Global,
    ident: &[u8],
    number: &[u8],
    block: &[u8],
) -> Result<Blob, Memory> {
    joined(
        alloc,
        &[
            b"<?xml version=\"1.0\" encoding=\"UTF-8\"?><!-- x -->\
              <S:Envelope xmlns:S='http://www.w3.org/2003/05/soap-envelope' \
              xmlns:wsa=\"http://www.w3.org/2005/08/addressing\" \
              xmlns:rm=\"http://docs.oasis-open.org/ws-rx/wsrm/200702\" xmlns:o=\"urn:o\"><S:Header>\
              <wsa:Action S:mustUnderstand=\"1\">urn:buy&amp;sell</wsa:Action>\
              <rm:Sequence S:mustUnderstand=\"1\"><rm:Identifier>",
            ident,
            b"</rm:Identifier><rm:MessageNumber> ",
            number,
            b"</rm:MessageNumber></rm:Sequence>",
            block,
            b"</S:Header><S:Body><o:x/></S:Body></S:Envelope>",
        ],
    )
}
