//! What a message has: SOAP 1.2 Part 1, section 5, with the headers of WS-Addressing 1.0 and WS-ReliableMessaging 1.2.
ghost use Rattle.std.specs.Prelude.{◌≡◌};
ghost use Rattle.rm_message.specs.Payloads.{payload_in};

use crate::elements::{AckBlock, Lifecycle, SeqHeader};
use rm_base::{Blob, Ident, Items, Payload};
use soap_document::profile::{Elements, Name};
use wsa_headers::Addressing;

pub type Acks = Items<AckBlock>;

pub type Idents = Items<Ident>;

pub type Names = Items<Name>;

/// The local name of a fault's Code: SOAP 1.2 Part 1, section 5.4.6.
#[derive(Clone, Copy, Debug, PartialEq, Eq)]
pub enum FaultCode {
    VersionMismatch,
    MustUnderstand,
    DataEncodingUnknown,
    Sender,
    Receiver,
}

/// A Fault: SOAP 1.2 Part 1, section 5.4. `inner` is the Subcode within the Subcode.
#[derive(Debug)]
pub struct FaultBody {
    pub code: FaultCode,
    pub subcode: Option<Name>,
    pub inner: Option<Name>,
    pub reason: Blob,
    pub detail: Elements,
}

impl Drop for FaultBody {
    fn drop(self) {
        let FaultBody {
            code: _,
            subcode: _,
            inner: _,
            reason: _,
            detail: _,
        } = self;
    }
}

#[derive(Debug)]
pub enum Body {
    Empty,
    Payload(Payload),
    Lifecycle(Lifecycle),
    Fault(FaultBody),
}

impl Body {
    /// The payload that it is, which is moved out.
    pub fn into_payload(self) -> Option<Payload>
        ensures { result ≡ payload_in self }
    {
        match self {
            Body::Payload(payload) => Some(payload),
            Body::Empty => None,
            Body::Lifecycle(_) => None,
            Body::Fault(_) => None,
        }
    }
}

impl Drop for Body {
    fn drop(self) {
        match self {
            Body::Empty => {}
            Body::Payload(_) => {}
            Body::Lifecycle(_) => {}
            Body::Fault(_) => {}
        }
    }
}

/// One message. `asks` are the sequences of AckRequested blocks, `pending` is MessagePending, and `not_understood` are
/// the names of NotUnderstood blocks.
#[derive(Debug)]
pub struct Message {
    pub addressing: Addressing,
    pub sequence: Option<SeqHeader>,
    pub acks: Acks,
    pub asks: Idents,
    pub pending: Option<bool>,
    pub not_understood: Names,
    pub body: Body,
}

impl Message {
    /// Its body, which is moved out.
    pub fn into_body(self) -> Body
        ensures { result ≡ self.body }
    {
        let Message {
            addressing: _,
            sequence: _,
            acks: _,
            asks: _,
            pending: _,
            not_understood: _,
            body,
        } = self;
        body
    }
}

// It's written, and not derived: a value whose drop is derived is taken apart at each place where it may be let go.
impl Drop for Message {
    fn drop(self) {
        let Message {
            addressing: _,
            sequence: _,
            acks: _,
            asks: _,
            pending: _,
            not_understood: _,
            body: _,
        } = self;
    }
}
