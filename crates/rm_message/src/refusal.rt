//! Why bytes are no message, or a message is not taken.
ghost use Rattle.std.specs.Prelude.{◌≡◌};
ghost use Rattle.rm_message.specs.Kinds.{kind_name, kind_number};

use crate::message::Names;
use rm_base::{Ident, Uri};
use wsa_headers::Epr;

/// The kinds of refusals, in the order in which they are tested. The first eleven depend on the bytes alone.
#[derive(Clone, Copy, Debug, PartialEq, Eq)]
pub enum FaultKind {
    TooLong,
    NotUtf8,
    NotProfile,
    WrongVersion,
    NotEnvelope,
    NotUnderstood,
    Cardinality,
    HeaderMissing,
    BadHeader,
    Malformed,
    Rollover,
    WsrmRequired,
    UnknownSequence,
    SequenceTerminated,
    SequenceClosed,
    InvalidAcknowledgement,
    CreateSequenceRefused,
    MissingSelection,
    UnsupportedSelection,
    StoreFull,
}

/// The local name of the subcode of a rollover, which isn't the name of its kind.
pub const ROLLOVER: &[u8] = b"MessageNumberRollover";

impl FaultKind {
    /// Its name, which is the reason of its fault too.
    pub fn name(self) -> &'static [u8]
        ensures { result.now ≡ kind_name self }
    {
        match self {
            FaultKind::TooLong => b"TooLong",
            FaultKind::NotUtf8 => b"NotUtf8",
            FaultKind::NotProfile => b"NotProfile",
            FaultKind::WrongVersion => b"WrongVersion",
            FaultKind::NotEnvelope => b"NotEnvelope",
            FaultKind::NotUnderstood => b"NotUnderstood",
            FaultKind::Cardinality => b"Cardinality",
            FaultKind::HeaderMissing => b"HeaderMissing",
            FaultKind::BadHeader => b"BadHeader",
            FaultKind::Malformed => b"Malformed",
            FaultKind::Rollover => b"Rollover",
            FaultKind::WsrmRequired => b"WsrmRequired",
            FaultKind::UnknownSequence => b"UnknownSequence",
            FaultKind::SequenceTerminated => b"SequenceTerminated",
            FaultKind::SequenceClosed => b"SequenceClosed",
            FaultKind::InvalidAcknowledgement => b"InvalidAcknowledgement",
            FaultKind::CreateSequenceRefused => b"CreateSequenceRefused",
            FaultKind::MissingSelection => b"MissingSelection",
            FaultKind::UnsupportedSelection => b"UnsupportedSelection",
            FaultKind::StoreFull => b"StoreFull",
        }
    }

    /// Its place among the kinds, counted from 1.
    pub fn number(self) -> u8
        ensures { result ≡ kind_number self }
    {
        match self {
            FaultKind::TooLong => 1,
            FaultKind::NotUtf8 => 2,
            FaultKind::NotProfile => 3,
            FaultKind::WrongVersion => 4,
            FaultKind::NotEnvelope => 5,
            FaultKind::NotUnderstood => 6,
            FaultKind::Cardinality => 7,
            FaultKind::HeaderMissing => 8,
            FaultKind::BadHeader => 9,
            FaultKind::Malformed => 10,
            FaultKind::Rollover => 11,
            FaultKind::WsrmRequired => 12,
            FaultKind::UnknownSequence => 13,
            FaultKind::SequenceTerminated => 14,
            FaultKind::SequenceClosed => 15,
            FaultKind::InvalidAcknowledgement => 16,
            FaultKind::CreateSequenceRefused => 17,
            FaultKind::MissingSelection => 18,
            FaultKind::UnsupportedSelection => 19,
            FaultKind::StoreFull => 20,
        }
    }
}

/// A refusal: its kind, where its fault goes, the message that it relates to, the names that were not understood, and
/// the sequence that it speaks of.
#[derive(Debug)]
pub struct Refusal {
    pub kind: FaultKind,
    pub endpoint: Epr,
    pub relates: Option<Uri>,
    pub names: Names,
    pub ident: Option<Ident>,
}

// It's written, and not derived: a value whose drop is derived is taken apart at each place where it may be let go.
impl Drop for Refusal {
    fn drop(self) {
        let Refusal {
            kind: _,
            endpoint: _,
            relates: _,
            names: _,
            ident: _,
        } = self;
    }
}

/// Why bytes were not decoded.
#[derive(Debug, Drop)]
pub enum DecodeError {
    Memory,
    Refused(Refusal),
}
