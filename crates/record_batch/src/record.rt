//! What a node writes down.
use rm_base::{Behaviour, Blob, Cause, Ident, Items, Lapse, Payload, Uri};
use rm_sides::ranges::RangeSet;
use wsa_headers::Epr;

/// How answers come back: to the node's own address, to its polled address, or on the connection, by the anonymous
/// address of WS-Addressing 1.0.
#[derive(Clone, Copy, Debug, PartialEq, Eq)]
pub enum Via {
    Direct,
    Polled,
    Back,
}

/// A sequence that a node offered: the number that its identifier was drawn with, and what the node does behind a gap.
#[derive(Clone, Copy, Debug, PartialEq, Eq)]
pub struct OwnOffer {
    pub counter: u64,
    pub behaviour: Behaviour,
}

/// A sequence that a peer offered and the node took.
#[derive(Debug, Drop)]
pub struct PeerOffer {
    pub ident: Ident,
    pub endpoint: Epr,
}

/// One thing that a node knows for good. `seq` counts the node's sequences from 1 in the order of their records;
/// Creating and Granted make one, and with an offer the next one in the other direction. A `last` of 0 is absent.
#[derive(Debug, Drop)]
pub enum Record {
    Made {
        node: u64,
        address: Uri,
    },
    Creating {
        ticket: u64,
        to: Uri,
        via: Via,
        lapse: Lapse,
        offer: Option<OwnOffer>,
    },
    Created {
        seq: u32,
        ident: Ident,
        accept: Option<Epr>,
    },
    Granted {
        counter: u64,
        message_id: Uri,
        acks_to: Epr,
        behaviour: Behaviour,
        deadline: Option<u64>,
        lapse: Lapse,
        offer: Option<PeerOffer>,
    },
    Accepted {
        seq: u32,
        payload: Blob,
    },
    Acked {
        seq: u32,
        numbers: RangeSet,
    },
    Received {
        seq: u32,
        number: u64,
        payload: Payload,
    },
    Closing {
        seq: u32,
        ticket: u64,
    },
    ClosedOut {
        seq: u32,
    },
    Closed {
        seq: u32,
        cause: Cause,
        last: u64,
    },
    Ending {
        seq: u32,
        ticket: u64,
    },
    EndedOut {
        seq: u32,
    },
    Ended {
        seq: u32,
        cause: Cause,
        last: u64,
    },
    /// `fault` is the number of the fault's kind, as `FaultKind::number` of `rm_message` has it.
    Failed {
        seq: u32,
        fault: u8,
    },
    /// The application took the items of the inbox up to this one for good.
    Consumed {
        seq: u32,
        upto: u64,
    },
    /// The messages 1 to `upto` were accepted and acknowledged, and their payloads are gone.
    Dropped {
        seq: u32,
        upto: u64,
    },
    /// Messages with these numbers were received and consumed, and their payloads are gone.
    Purged {
        seq: u32,
        numbers: RangeSet,
    },
}

/// Records, oldest first.
pub type Records = Items<Record>;
