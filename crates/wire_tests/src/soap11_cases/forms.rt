//! What the tests share: envelopes in parts, and what messages are lifted and lowered to.
use rm_base::{Blob, Memory};
use rm_message::{DecodeError, FaultKind, Message};
use rm_wire::soap11::{decode11, lift, lower};
use std::alloc::Global;

/// The start tag of an envelope of SOAP 1.1 in the form that is written.
pub(crate) const START11: &[u8] =
    b"<s:Envelope xmlns:s=\"http://schemas.xmlsoap.org/soap/envelope/\" \
    xmlns:a=\"http://www.w3.org/2005/08/addressing\" xmlns:r=\"http://docs.oasis-open.org/ws-rx/wsrm/200702\" \
    xmlns:c=\"http://docs.oasis-open.org/ws-rx/wsmc/200702\">";

/// And of one of SOAP 1.2.
pub(crate) const START12: &[u8] =
    b"<s:Envelope xmlns:s=\"http://www.w3.org/2003/05/soap-envelope\" \
    xmlns:a=\"http://www.w3.org/2005/08/addressing\" xmlns:r=\"http://docs.oasis-open.org/ws-rx/wsrm/200702\" \
    xmlns:c=\"http://docs.oasis-open.org/ws-rx/wsmc/200702\">";

/// These texts, one behind the other.
pub(crate) fn joined(alloc: Global, texts: &[&[u8]]) -> Result<Blob, Memory> {
    let mut all = Blob::new(alloc);
    for text in texts {
        all.push_all(text)?;
    }
    Ok(all)
}

/// What a message is lifted to. No other functions let a message go but this and the next, since the proof of that
/// takes long.
pub(crate) fn lifted(alloc: Global, message: Message) -> Result<Blob, Memory> {
    lift(alloc, &message)
}

/// What a message is lowered to.
pub(crate) fn lowered(alloc: Global, message: Message) -> Result<Option<Blob>, Memory> {
    lower(alloc, &message)
}

/// Whether there is a text, and it is this.
pub(crate) fn is_text(found: &Option<Blob>, text: &[u8]) -> bool {
    match found {
        Some(found) => found.as_slice() == text,
        None => false,
    }
}

/// Whether the message of a document is lifted to this text.
pub(crate) fn is_lifted(alloc: Global, document: &[u8], text: &[u8]) -> Result<bool, Memory> {
    match decode11(alloc, document) {
        Ok(message) => Ok(lifted(alloc, message)?.as_slice() == text),
        Err(_) => Ok(false),
    }
}

/// Whether the message of a document of SOAP 1.1 is written so.
pub(crate) fn is_written(alloc: Global, document: &[u8], text: &[u8]) -> Result<bool, Memory> {
    match decode11(alloc, document) {
        Ok(message) => Ok(is_text(&lowered(alloc, message)?, text)),
        Err(_) => Ok(false),
    }
}

/// Why a document of SOAP 1.1 is refused, where it is.
pub(crate) fn kind_of(alloc: Global, bytes: &[u8]) -> Option<FaultKind> {
    match decode11(alloc, bytes) {
        Err(DecodeError::Refused(refusal)) => Some(refusal.kind),
        _ => None,
    }
}
