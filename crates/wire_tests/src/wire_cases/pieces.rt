//! Messages whose envelopes come in pieces.
use crate::wire_cases::forms::{PAYLOAD, rewritten, was_refused};
use message_reader::{decode, decode_read};
use rm_base::{Blob, Memory};
use rm_message::{DecodeError, FaultKind, Message};
use soap_pieces::EnvelopeReader;
use std::alloc::Global;

// A reader that was fed a document in three pieces.
fn fed(
    alloc: Global,
    document: &[u8],
    first: usize,
    second: usize,
) -> Result<EnvelopeReader, Memory> {
    let (begun, last) = document.split_at(second.min(document.len()));
    let (one, two) = begun.split_at(first.min(begun.len()));
    let mut reader = EnvelopeReader::new(alloc);
    let is_first = reader.feed(one).is_ok();
    let is_second = reader.feed(two).is_ok();
    let is_third = reader.feed(last).is_ok();
    if is_first & is_second & is_third {
        Ok(reader)
    } else {
        Err(Memory)
    }
}

// Its message.
fn decode_cut(
    alloc: Global,
    document: &[u8],
    first: usize,
    second: usize,
) -> Result<Message, DecodeError> {
    match fed(alloc, document, first, second) {
        Ok(reader) => decode_read(alloc, reader.finish()),
        Err(Memory) => Err(DecodeError::Memory),
    }
}

// Whether a document that is cut so has the message that it has whole.
fn is_same(
    alloc: Global,
    document: &[u8],
    first: usize,
    second: usize,
    whole: &Blob,
) -> Result<bool, Memory> {
    match rewritten(alloc, decode_cut(alloc, document, first, second))? {
        Some(written) => Ok(written.as_slice() == whole.as_slice()),
        None => Ok(false),
    }
}

#[test]
fn a_payload_from_each_two_pieces(rt: HostRuntime) -> Result<(), Memory> {
    let Some(whole) = rewritten(rt.alloc(), decode(rt.alloc(), PAYLOAD))? else {
        return Err(Memory);
    };
    for cut in 0..=PAYLOAD.len() {
        assert!(rt; is_same(rt.alloc(), PAYLOAD, 0, cut, &whole)?, "{cut}");
    }
    Ok(())
}

const SHORT: &[u8] = b"<Envelope xmlns='http://www.w3.org/2003/05/soap-envelope'><Header>\
    <Action xmlns='http://www.w3.org/2005/08/addressing'>urn:\xc3\xa9&#13;</Action></Header><Body/></Envelope>";

// Whether a short document is the same wherever else it is cut.
fn is_same_cut(alloc: Global, second: usize, whole: &Blob) -> Result<bool, Memory> {
    let mut are_same = true;
    for first in 0..=second {
        are_same &= is_same(alloc, SHORT, first, second, whole)?;
    }
    Ok(are_same)
}

#[test]
fn a_short_message_from_each_three_pieces(rt: HostRuntime) -> Result<(), Memory> {
    let Some(whole) = rewritten(rt.alloc(), decode(rt.alloc(), SHORT))? else {
        return Err(Memory);
    };
    for second in 0..=SHORT.len() {
        assert!(rt; is_same_cut(rt.alloc(), second, &whole)?, "{second}");
    }
    Ok(())
}

const REFUSALS: [(&[u8], FaultKind); 4] = [
    (b"<Envelope<\xc3\xa9", FaultKind::NotProfile),
    (b"<Envelope<\xc3\xa9\xc3", FaultKind::NotUtf8),
    (
        b"<Envelope xmlns='urn:x'><Body/></Envelope>",
        FaultKind::WrongVersion,
    ),
    (
        b"<Envelope xmlns='http://www.w3.org/2003/05/soap-envelope'><Body/></Envelope>",
        FaultKind::HeaderMissing,
    ),
];

// Whether a document is refused for this wherever it is cut.
fn is_refused_cut(alloc: Global, document: &[u8], kind: FaultKind) -> bool {
    let mut are_refused = true;
    for cut in 0..=document.len() {
        are_refused &= was_refused(decode_cut(alloc, document, 0, cut), kind);
    }
    are_refused
}

#[test]
fn refusals_from_each_two_pieces(rt: HostRuntime) {
    for (document, kind) in &REFUSALS {
        assert!(rt;
            is_refused_cut(rt.alloc(), document, *kind),
            "{}",
            document.escape_ascii()
        );
    }
}
