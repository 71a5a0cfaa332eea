//! Whole messages from bytes.
ghost use Rattle.std.specs.Prelude.{◌≡◌, ℕ, List, IfOk, IfErr};
ghost use Rattle.soap_envelope.specs.Soap.{soap_space};
ghost use Rattle.soap_envelope.specs.View.{envelope_view};
ghost use Rattle.message_reader.specs.Message.{message_in};
ghost use Rattle.message_reader.specs.Outcome.{Decodes, IsEarly, told_by, early_kind as early_kind_of};
ghost use Rattle.message_reader.specs.Reading.{IsReading, IsReadingIn};
ghost use Rattle.message_reader.specs.Refusals.{Spells, IsRefusal};

use crate::read::read_message;
use crate::refusal::{blind, refusal};
use rm_base::Memory;
use rm_message::{DecodeError, FaultKind, Message, Refusal};
use soap_document::profile::EnvelopeError;
use soap_envelope::{Envelope, SOAP_SPACE, read_envelope_in};
use std::alloc::Global;

/// The message that the bytes spell where SOAP has this namespace, or the refusal of the first kind that holds, with
/// where its fault goes.
/// - `ok`: an envelope of at most 2097152 bytes whose header blocks and body have these values.
/// - `err`: the first kind that holds, from TooLong to Rollover, with the endpoint of its fault, the message that this
///   relates to, the names that were not understood, and the sequence. What is refused spells nothing.
pub fn decode_in(alloc: Global, bytes: &[u8], soap: &[u8]) -> Result<Message, DecodeError>
    ensures ok { IfOk result (Spells soap.now bytes.now) }
    ensures err { IfErr result (IsRefusal soap.now bytes.now) }
{
    decode_read_in(alloc, soap, read_envelope_in(alloc, bytes, soap))
}

/// The same where the bytes are SOAP 1.2.
pub fn decode(alloc: Global, bytes: &[u8]) -> Result<Message, DecodeError>
    ensures ok { IfOk result (Spells soap_space bytes.now) }
    ensures err { IfErr result (IsRefusal soap_space bytes.now) }
{
    decode_in(alloc, bytes, SOAP_SPACE)
}

/// What `decode` answers of bytes of which a reader of envelopes answered this, however the bytes came to it.
pub fn decode_read(
    alloc: Global,
    read: Result<Envelope, EnvelopeError>,
) -> Result<Message, DecodeError>
    ensures ok { (bytes : List ℕ) → IsReading bytes read → IfOk result (Spells soap_space bytes) }
    ensures err { (bytes : List ℕ) → IsReading bytes read → IfErr result (IsRefusal soap_space bytes) }
{
    decode_read_in(alloc, SOAP_SPACE, read)
}

// The same where SOAP has this namespace.
fn decode_read_in(
    alloc: Global,
    soap: &[u8],
    read: Result<Envelope, EnvelopeError>,
) -> Result<Message, DecodeError>
    ensures ok { (bytes : List ℕ) → IsReadingIn soap.now bytes read → IfOk result (Spells soap.now bytes) }
    ensures err { (bytes : List ℕ) → IsReadingIn soap.now bytes read → IfErr result (IsRefusal soap.now bytes) }
{
    match read {
        Ok(envelope) => decode_envelope(alloc, soap, envelope),
        Err(error) => Err(unread(alloc, error)),
    }
}

// The message of an envelope where SOAP has this namespace, or its refusal.
fn decode_envelope(alloc: Global, soap: &[u8], envelope: Envelope) -> Result<Message, DecodeError>
    ensures { Decodes result (message_in soap.now (envelope_view envelope)) }
{
    match read_message(alloc, soap, envelope) {
        Ok(message) => Ok(message),
        Err(cause) => Err(told(refusal(alloc, cause))),
    }
}

// A refusal, or that there was no memory for it.
fn told(found: Result<Refusal, Memory>) -> DecodeError
    ensures { result ≡ told_by found }
{
    match found {
        Ok(refusal) => DecodeError::Refused(refusal),
        Err(Memory) => DecodeError::Memory,
    }
}

// The kind of a refusal of bytes that are no envelope.
fn early_kind(error: EnvelopeError) -> Option<FaultKind>
    ensures { result ≡ early_kind_of error }
{
    match error {
        EnvelopeError::Memory => None,
        EnvelopeError::TooLong { .. } => Some(FaultKind::TooLong),
        EnvelopeError::NotUtf8 { .. } => Some(FaultKind::NotUtf8),
        EnvelopeError::NotProfile => Some(FaultKind::NotProfile),
        EnvelopeError::WrongVersion => Some(FaultKind::WrongVersion),
        EnvelopeError::NotEnvelope => Some(FaultKind::NotEnvelope),
    }
}

// The refusal of bytes that are no envelope.
fn unread(alloc: Global, error: EnvelopeError) -> DecodeError
    ensures { IsEarly (early_kind_of error) result }
{
    match early_kind(error) {
        Some(kind) => told(blind(alloc, kind)),
        None => DecodeError::Memory,
    }
}
