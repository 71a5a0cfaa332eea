//! What `check` prints of a message.
ghost use Rattle.std.specs.Prelude.{◌≡◌, ℕ, List, IfOk, IfSome, IfNone, Err, Some, true, false};
ghost use Rattle.message_reader.specs.Reading.{IsReading};
ghost use Rattle.rm_command.specs.Check.{HasFault, IsReadOfSome, IsTextOf, is_of_bytes, kind_of};
ghost use Rattle.rm_command.specs.declared.end.Fault.{Fault as AFault};

use crate::end::Fault;
use crate::filter::NoText;
use message_reader::decode_read;
use rm_base::Blob;
use rm_message::{DecodeError, FaultKind, Refusal};
use rm_script::message_lines::message_lines;
use soap_document::profile::EnvelopeError;
use soap_envelope::Envelope;
use std::alloc::Global;

/// What is printed of bytes of which a reader of envelopes answered this, where they spell a message.
pub fn text_of(alloc: Global, read: Result<Envelope, EnvelopeError>) -> Result<Blob, NoText>
    requires { IsReadOfSome read }
    ensures text { (bytes : List ℕ) → IsReading bytes read → IfOk result (λ text. IsTextOf bytes text) }
    ensures faulty { (bytes : List ℕ) (fault : AFault) → IsReading bytes read
        → result ≡ Err (NoText.Faulty fault) → HasFault bytes fault }
{
    match decode_read(alloc, read) {
        Ok(message) => Ok(message_lines(alloc, &message)?),
        Err(DecodeError::Refused(refusal)) => Err(NoText::Faulty(fault_of(refusal))),
        Err(DecodeError::Memory) => Err(NoText::Memory),
    }
}

// The fault of a refusal whose kind depends on the bytes alone and isn't their length.
fn fault_of(refusal: Refusal) -> Fault
    requires { is_of_bytes refusal.kind ≡ true }
    ensures { kind_of result ≡ Some refusal.kind }
{
    match fault_named(refusal.kind) {
        Some(fault) => fault,
        None => unreachable!(),
    }
}

// The fault of a kind, where `check` may meet it.
fn fault_named(kind: FaultKind) -> Option<Fault>
    ensures found { IfSome result (λ fault. kind_of fault ≡ Some kind) }
    ensures none { IfNone result (is_of_bytes kind ≡ false) }
{
    match kind {
        FaultKind::NotUtf8 => Some(Fault::NotUtf8),
        FaultKind::NotProfile => Some(Fault::NotProfile),
        FaultKind::WrongVersion => Some(Fault::WrongVersion),
        FaultKind::NotEnvelope => Some(Fault::NotEnvelope),
        FaultKind::NotUnderstood => Some(Fault::NotUnderstood),
        FaultKind::Cardinality => Some(Fault::Cardinality),
        FaultKind::HeaderMissing => Some(Fault::HeaderMissing),
        FaultKind::BadHeader => Some(Fault::BadHeader),
        FaultKind::Malformed => Some(Fault::Malformed),
        FaultKind::Rollover => Some(Fault::Rollover),
        _ => None,
    }
}
