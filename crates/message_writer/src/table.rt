//! The table of faults: SOAP 1.2 Part 1, section 5.4, WS-Addressing 1.0 SOAP Binding, section 6, WS-ReliableMessaging
//! 1.2, section 4, and WS-MakeConnection 1.1, section 4.
ghost use Rattle.std.specs.Prelude.{◌≡◌, option_map};
ghost use Rattle.message_writer.specs.Faults.{table, fault_action, space_of};
ghost use Rattle.rm_base.specs.Text.{IsText};

use rm_message::elements::{CONNECTION, MESSAGING};
use rm_message::{FaultCode, FaultKind, ROLLOVER, actions};
use soap_envelope::SOAP_SPACE;
use wsa_headers::ADDRESSING;

/// The vocabulary that a fault is of.
#[derive(Clone, Copy, Debug)]
pub enum Vocabulary {
    OfSoap,
    OfAddressing,
    OfMessaging,
    OfConnection,
}

impl Vocabulary {
    /// Its namespace.
    pub fn space(self) -> &'static [u8]
        ensures { result.now ≡ space_of self }
    {
        match self {
            Vocabulary::OfSoap => SOAP_SPACE,
            Vocabulary::OfAddressing => ADDRESSING,
            Vocabulary::OfMessaging => MESSAGING,
            Vocabulary::OfConnection => CONNECTION,
        }
    }

    /// The action of its faults.
    pub fn action(self) -> &'static [u8]
        ensures is { result.now ≡ fault_action self }
        ensures is_text { IsText 2048 result.now }
    {
        match self {
            Vocabulary::OfSoap => actions::SOAP_FAULT,
            Vocabulary::OfAddressing => actions::ADDRESSING_FAULT,
            Vocabulary::OfMessaging => actions::FAULT,
            Vocabulary::OfConnection => actions::CONNECTION_FAULT,
        }
    }
}

/// The vocabulary of a kind's fault.
pub fn whose(kind: FaultKind) -> Vocabulary
    ensures { result ≡ (table kind).whose }
{
    match kind {
        FaultKind::Cardinality | FaultKind::HeaderMissing | FaultKind::BadHeader =>
            Vocabulary::OfAddressing,
        FaultKind::Rollover
        | FaultKind::WsrmRequired
        | FaultKind::UnknownSequence
        | FaultKind::SequenceTerminated
        | FaultKind::SequenceClosed
        | FaultKind::InvalidAcknowledgement
        | FaultKind::CreateSequenceRefused => Vocabulary::OfMessaging,
        FaultKind::MissingSelection | FaultKind::UnsupportedSelection => Vocabulary::OfConnection,
        _ => Vocabulary::OfSoap,
    }
}

/// The code of a kind's fault.
pub fn code(kind: FaultKind) -> FaultCode
    ensures { result ≡ (table kind).code }
{
    match kind {
        FaultKind::WrongVersion => FaultCode::VersionMismatch,
        FaultKind::NotUnderstood => FaultCode::MustUnderstand,
        FaultKind::CreateSequenceRefused
        | FaultKind::MissingSelection
        | FaultKind::UnsupportedSelection
        | FaultKind::StoreFull => FaultCode::Receiver,
        _ => FaultCode::Sender,
    }
}

/// The local name of the subcode of a kind's fault, where it has one.
pub fn subcode(kind: FaultKind) -> Option<&'static [u8]>
    ensures { option_map (λ local. local.now) result ≡ (table kind).subcode }
{
    match kind {
        FaultKind::Cardinality | FaultKind::BadHeader => Some(
            b"InvalidAddressingHeader".as_slice(),
        ),
        FaultKind::HeaderMissing => Some(b"MessageAddressingHeaderRequired".as_slice()),
        FaultKind::Rollover => Some(ROLLOVER),
        FaultKind::WsrmRequired => Some(b"WSRMRequired".as_slice()),
        FaultKind::UnknownSequence
        | FaultKind::SequenceTerminated
        | FaultKind::SequenceClosed
        | FaultKind::InvalidAcknowledgement
        | FaultKind::CreateSequenceRefused
        | FaultKind::MissingSelection
        | FaultKind::UnsupportedSelection => Some(kind.name()),
        _ => None,
    }
}

/// The local name of the subcode within it, where there is one.
pub fn inner(kind: FaultKind) -> Option<&'static [u8]>
    ensures { option_map (λ local. local.now) result ≡ (table kind).inner }
{
    match kind {
        FaultKind::Cardinality => Some(b"InvalidCardinality".as_slice()),
        _ => None,
    }
}
